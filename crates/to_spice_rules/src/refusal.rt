// Why a design has no SPICE text.
ghost use Rattle.std.specs.Prelude.{◌≡◌, [], ◌∷◌, IfOk};
ghost use Rattle.to_spice_rules.specs.Names.{refused};

use nl_base::{NoMemory, Seq, Text};
use std::alloc::Global;

/// A rule of SPICE texts, in the order in which the rules are tried.
#[derive(Clone, Copy, PartialEq, Eq)]
pub enum SpiceRule {
    S1,
    S2,
    S3,
    S4,
    S5,
    S6,
}

/// A broken rule, the name of the cell in which the object stands, and the names that tell the object.
#[derive(Drop)]
pub struct SpiceRefusal {
    pub rule: SpiceRule,
    pub cell: Text,
    pub names: Seq<Text>,
}

/// The refusal that names nothing but a cell.
pub fn refuse_cell(alloc: Global, rule: SpiceRule, cell: &[u8]) -> Result<SpiceRefusal, NoMemory>
    ensures { IfOk result (λ refusal. refusal ≡ refused rule cell.now []) }
{
    let cell = Text::copy(alloc, cell)?;
    Ok(SpiceRefusal {
        rule,
        cell,
        names: Seq::empty(alloc),
    })
}

/// The refusal of an object with one name.
pub fn refuse(
    alloc: Global,
    rule: SpiceRule,
    cell: &[u8],
    name: &[u8],
) -> Result<SpiceRefusal, NoMemory>
    ensures { IfOk result (λ refusal. refusal ≡ refused rule cell.now (name.now ∷ [])) }
{
    let mut names = Seq::empty(alloc);
    names.push(Text::copy(alloc, name)?)?;
    Ok(SpiceRefusal {
        rule,
        cell: Text::copy(alloc, cell)?,
        names,
    })
}

/// The refusal of an object with two names.
pub fn refuse_two(
    alloc: Global,
    rule: SpiceRule,
    cell: &[u8],
    first: &[u8],
    second: &[u8],
) -> Result<SpiceRefusal, NoMemory>
    ensures { IfOk result
        (λ refusal. refusal ≡ refused rule cell.now (first.now ∷ second.now ∷ [])) }
{
    let mut names = Seq::empty(alloc);
    names.push(Text::copy(alloc, first)?)?;
    names.push(Text::copy(alloc, second)?)?;
    Ok(SpiceRefusal {
        rule,
        cell: Text::copy(alloc, cell)?,
        names,
    })
}
