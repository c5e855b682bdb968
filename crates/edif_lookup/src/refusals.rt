// Refusals, and the one of two that comes first.
ghost use Rattle.std.specs.Prelude.{◌≡◌, ◌∷◌, [], nat_lt, IfOk};
ghost use Rattle.nl_base.specs.Rules.{rule_number};
ghost use Rattle.edif_lookup.specs.Refusals.{lower};

use nl_base::{NoMemory, Refusal, Rule, Seq, Text};
use std::alloc::Global;

// Whether the one rule is lower than the other.
fn is_lower(rule: Rule, other: Rule) -> bool
    ensures { result ≡ nat_lt (rule_number rule) (rule_number other) }
{
    rule.number() < other.number()
}

/// The one of two answers that comes first: that of the lower rule, and the first of two of one rule.
#[tactic(auto, unfolding(crate::specs::Refusals::lower))]
pub fn lower(best: Option<Refusal>, next: Option<Refusal>) -> Option<Refusal>
    ensures { result ≡ lower best next }
{
    match (best, next) {
        (None, next) => next,
        (best, None) => best,
        (Some(refusal), Some(other)) => {
            if is_lower(other.rule, refusal.rule) {
                Some(other)
            } else {
                Some(refusal)
            }
        }
    }
}

/// A refusal with these names.
pub fn refusal(
    alloc: Global,
    rule: Rule,
    cell: &[u8],
    names: Seq<Text>,
) -> Result<Refusal, NoMemory>
    ensures { IfOk result (λ made. made ≡ record { rule = rule; cell = cell.now; names = names }) }
{
    let cell = Text::copy(alloc, cell)?;
    Ok(Refusal { rule, cell, names })
}

/// The names of a refusal: one.
pub fn one_name(alloc: Global, name: &[u8]) -> Result<Seq<Text>, NoMemory>
    ensures { IfOk result (λ names. names ≡ name.now ∷ []) }
{
    let mut names = Seq::empty(alloc);
    names.push(Text::copy(alloc, name)?)?;
    Ok(names)
}

/// The names of a refusal: two.
pub fn two_names(alloc: Global, first: &[u8], second: &[u8]) -> Result<Seq<Text>, NoMemory>
    ensures { IfOk result (λ names. names ≡ first.now ∷ (second.now ∷ [])) }
{
    let mut names = one_name(alloc, first)?;
    names.push(Text::copy(alloc, second)?)?;
    Ok(names)
}
