// The names of a module whose statements stand apart from what it declares.
ghost use Rattle.std.specs.Prelude.{◌≡◌, ◌≤◌, ◌++◌, [], None, IfOk};
ghost use Rattle.vlog_design.specs.Names.{implicit_names};
ghost use Rattle.vlog_design.specs.Rules.{declared_twice};
ghost use Rattle.vlog_design.specs.Tables.{names_of};
ghost use Rattle.vlog_scopes.specs.Distinct.{Distinct, signal_names};
ghost use Rattle.vlog_scopes.specs.Ranged.{net_slots, number_behind, of_range};
ghost use Rattle.vlog_scopes.specs.Signals.{declared_nets, declared_signals};
ghost use Rattle.vlog_values.specs.Sizes.{module_size};

use crate::entries::{add_declared, add_single};
use crate::implicit::implicit_in;
use crate::known::shows_none;
use crate::new_table::NewTable;
use nl_base::{NoMemory, Text};
use std::alloc::Global;
use vlog_design::table::Table;
use vlog_rules::counts::count_signals;
use vlog_rules::lists::push_texts;
use vlog_values::Module;

/// The names of the nets that no declaration declares, in the order of first use. Mostly there are none, which is seen by the table of
/// the ports and the declared nets.
pub fn undeclared_names<'a>(alloc: Global, m: &'a Module) -> Result<Vec<&'a [u8]>, NoMemory>
    requires once { declared_twice m.now ≡ [] }
    requires small { module_size m.now ≤ 268435456 }
    ensures { IfOk result (λ names. names_of names.items ≡ implicit_names m.now) }
{
    let mut table = NewTable::empty(alloc, count_signals(m))?;
    add_declared(alloc, m, &mut table)?;
    let shown = shows_none(alloc, m, &table)?;
    if shown {
        return Ok(Vec::new(alloc));
    }
    let names = implicit_in(alloc, m)?;
    Ok(names)
}

/// The table of what a module declares, with these names behind, which no declaration declares.
pub fn table_with<'a>(
    alloc: Global,
    declared: &'a Module,
    undeclared: &'a [Text],
) -> Result<Table<'a>, NoMemory>
    requires once { declared_twice declared.now ≡ [] }
    requires small { module_size declared.now ≤ 268435456 }
    requires apart { Distinct (signal_names (declared_signals declared.now) ++ undeclared.now) }
    ensures { IfOk result (λ table. table ≡ declared_signals declared.now
        ++ net_slots (number_behind 0 (declared_nets declared.now))
        (of_range None undeclared.now)) }
{
    let room = count_signals(declared).saturating_add(undeclared.len());
    let mut names = NewTable::empty(alloc, room)?;
    let next = add_declared(alloc, declared, &mut names)?;
    let mut behind = Vec::with_capacity(alloc, undeclared.len())?;
    push_texts(undeclared, &mut behind)?;
    add_single(&behind, next, &mut names)?;
    let table = names.into_table()?;
    Ok(table)
}
