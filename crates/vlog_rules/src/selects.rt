// Selects that mean no bits.
ghost use Rattle.std.specs.Prelude.{◌≡◌, IfOk, find, is_some, map, option_map, option_copied};
ghost use Rattle.nl_base.specs.declared.rule.Rule.TheVariants.{G7};
ghost use Rattle.vlog_design.specs.Names.{signals};
ghost use Rattle.vlog_design.specs.Ranges.{selected};
ghost use Rattle.vlog_design.specs.Rules.{bad_select_in, bad_selects, first_of, refused};
ghost use Rattle.vlog_design.specs.Uses.{use_of, uses_of};

use crate::refusals::refuse;
use nl_base::{NoMemory, Range, Refusal, Rule};
use std::alloc::Global;
use vlog_design::table::Table;
use vlog_design::uses::{UseOf, uses_in};
use vlog_design::widths::position;
use vlog_values::{Module, Select};

/// Whether the select means bits of the range.
#[tactic(auto, unfolding(vlog_design::specs::Ranges::selected))]
pub(crate) fn is_selected(range: Option<Range>, select: Select) -> bool
    ensures { result ≡ is_some (selected range select) }
{
    match select {
        Select::All => true,
        Select::One(index) => match range {
            None => false,
            Some(range) => match position(range, index) {
                None => false,
                Some(_) => true,
            },
        },
        Select::Slice(from, to) => match range {
            None => false,
            Some(range) => match (position(range, from), position(range, to)) {
                (Some(p), Some(q)) => p <= q,
                _ => false,
            },
        },
    }
}

fn is_bad(table: &Table, u: &UseOf) -> bool
    ensures { result ≡ bad_select_in table.now (use_of u.now) }
{
    match table.find(u.name) {
        None => false,
        Some(slot) => !is_selected(slot.range, u.select),
    }
}

fn first_bad<'a>(table: &Table, uses: &[UseOf<'a>]) -> Option<&'a [u8]>
    ensures { option_copied result
        ≡ option_map (λ u. u.name) (find (bad_select_in table.now) (uses_of uses.now)) }
{
    for u in uses {
        if is_bad(table, u) {
            return Some(u.name);
        }
    }
    None
}

/// The first select of the module that means no bits.
pub fn bad_select(alloc: Global, m: &Module, table: &Table) -> Result<Option<Refusal>, NoMemory>
    requires { table.now ≡ signals m.now }
    ensures { IfOk result (λ found. found
        ≡ first_of (map (refused G7 m.now.name) (bad_selects m.now))) }
{
    let uses = uses_in(alloc, m)?;
    match first_bad(table, &uses) {
        None => Ok(None),
        Some(name) => Ok(Some(refuse(alloc, Rule::G7, m.name.bytes(), name)?)),
    }
}
