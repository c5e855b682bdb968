// Refusals, made of names.
ghost use Rattle.std.specs.Prelude.{◌≡◌, [], ◌∷◌, ◌++◌, map, take, IfOk};
ghost use Rattle.vlog_design.specs.Rules.{refused};

use nl_base::{NoMemory, Refusal, Rule, Seq, Text};
use std::alloc::Global;
use vlog_values::VInst;

/// The refusal of an object with one name.
pub fn refuse(alloc: Global, rule: Rule, cell: &[u8], name: &[u8]) -> Result<Refusal, NoMemory>
    ensures { IfOk result (λ refusal. refusal ≡ refused rule cell.now (name.now ∷ [])) }
{
    let mut names = Seq::empty(alloc);
    names.push(Text::copy(alloc, name)?)?;
    Ok(Refusal {
        rule,
        cell: Text::copy(alloc, cell)?,
        names,
    })
}

/// The refusal of an object with two names.
pub fn refuse_two(
    alloc: Global,
    rule: Rule,
    cell: &[u8],
    outer: &[u8],
    inner: &[u8],
) -> Result<Refusal, NoMemory>
    ensures { IfOk result (λ refusal. refusal
        ≡ refused rule cell.now (outer.now ∷ inner.now ∷ [])) }
{
    let mut names = Seq::empty(alloc);
    names.push(Text::copy(alloc, outer)?)?;
    names.push(Text::copy(alloc, inner)?)?;
    Ok(Refusal {
        rule,
        cell: Text::copy(alloc, cell)?,
        names,
    })
}

/// The name of the first instance, alone in a list.
fn first_name(alloc: Global, insts: &[VInst]) -> Result<Seq<Text>, NoMemory>
    ensures { IfOk result (λ names. names ≡ map (λ instance. instance.name) (take 1 insts.now)) }
{
    let mut names = Seq::empty(alloc);
    if let Some(instance) = insts.first() {
        names.push(Text::copy(alloc, instance.name.bytes())?)?;
    }
    Ok(names)
}

/// The refusal of a name in a statement, which its first instance tells.
pub fn refuse_in_statement(
    alloc: Global,
    rule: Rule,
    cell: &[u8],
    insts: &[VInst],
    name: &[u8],
) -> Result<Refusal, NoMemory>
    ensures { IfOk result (λ refusal. refusal
        ≡ refused rule cell.now
        (map (λ instance. instance.name) (take 1 insts.now) ++ name.now ∷ [])) }
{
    let mut names = first_name(alloc, insts)?;
    names.push(Text::copy(alloc, name)?)?;
    Ok(Refusal {
        rule,
        cell: Text::copy(alloc, cell)?,
        names,
    })
}
