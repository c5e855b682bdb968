// What breaks a rule.
ghost use Rattle.std.specs.Prelude.{◌≡◌, ◌∷◌, [], IfOk};
ghost use Rattle.net_flatten_rules.specs.Rules.{refused};

use nl_base::{NoMemory, Seq, Text};
use std::alloc::Global;

/// A rule of flattened designs.
#[derive(Clone, Copy, PartialEq, Eq)]
pub enum FlattenRule {
    /// No two leaves have one joined name.
    F1,
    /// No name is longer than 1,024 bytes.
    F2,
}

/// An object that breaks a rule: its cell, and its names.
#[derive(Drop)]
pub struct Broken {
    pub rule: FlattenRule,
    pub cell: Text,
    pub names: Seq<Text>,
}

/// The refusal of an object of one name.
pub fn refuse_one(
    alloc: Global,
    rule: FlattenRule,
    cell: &[u8],
    name: &[u8],
) -> Result<Broken, NoMemory>
    ensures { IfOk result (λ broken. broken ≡ refused rule cell.now (name.now ∷ [])) }
{
    let mut names = Seq::empty(alloc);
    names.push(Text::copy(alloc, name)?)?;
    let cell = Text::copy(alloc, cell)?;
    Ok(Broken { rule, cell, names })
}

/// The refusal of an object of a kind and a name.
pub fn refuse_two(
    alloc: Global,
    rule: FlattenRule,
    cell: &[u8],
    kind: &[u8],
    name: &[u8],
) -> Result<Broken, NoMemory>
    ensures { IfOk result (λ broken. broken ≡ refused rule cell.now (kind.now ∷ name.now ∷ [])) }
{
    let mut names = Seq::empty(alloc);
    names.push(Text::copy(alloc, kind)?)?;
    names.push(Text::copy(alloc, name)?)?;
    let cell = Text::copy(alloc, cell)?;
    Ok(Broken { rule, cell, names })
}
