// Names in expressions that are no ports and no nets.
ghost use Rattle.std.specs.Prelude.{◌≡◌, IfOk, find, is_none, map, option_map, option_copied};
ghost use Rattle.nl_base.specs.declared.rule.Rule.TheVariants.{G6};
ghost use Rattle.vlog_design.specs.Names.{signal_named, signals};
ghost use Rattle.vlog_design.specs.Rules.{first_of, refused, unknown_names};
ghost use Rattle.vlog_design.specs.Uses.{uses_of};

use crate::refusals::refuse;
use nl_base::{NoMemory, Refusal, Rule};
use std::alloc::Global;
use vlog_design::table::Table;
use vlog_design::uses::{UseOf, uses_in};
use vlog_values::Module;

fn first_unknown<'a>(table: &Table, uses: &[UseOf<'a>]) -> Option<&'a [u8]>
    ensures { option_copied result
        ≡ option_map (λ u. u.name)
        (find (λ u. is_none (signal_named table.now u.name)) (uses_of uses.now)) }
{
    for u in uses {
        if table.find(u.name).is_none() {
            return Some(u.name);
        }
    }
    None
}

/// The first name in an expression of the module that is no port or net.
#[tactic(auto, unfolding(vlog_design::specs::Rules::unknown_names))]
pub fn unknown_name(alloc: Global, m: &Module, table: &Table) -> Result<Option<Refusal>, NoMemory>
    requires { table.now ≡ signals m.now }
    ensures { IfOk result (λ found. found
        ≡ first_of (map (refused G6 m.now.name) (unknown_names m.now))) }
{
    let uses = uses_in(alloc, m)?;
    match first_unknown(table, &uses) {
        None => Ok(None),
        Some(name) => Ok(Some(refuse(alloc, Rule::G6, m.name.bytes(), name)?)),
    }
}
