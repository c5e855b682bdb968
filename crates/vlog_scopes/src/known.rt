// Whether a module has nets that no declaration declares.
ghost use Rattle.std.specs.Prelude.{◌≡◌, ◌&&◌, [], true, flat_map, IfOk};
ghost use Rattle.std.specs.List.{list_any};
ghost use Rattle.vlog_design.specs.Names.{implicit_names, is_whole, item_targets, uses};
ghost use Rattle.vlog_design.specs.Uses.{use_of, uses_of};
ghost use Rattle.vlog_scopes.specs.Signals.{declared_signals};
ghost use Rattle.vlog_scopes.specs.Implicit.{is_unknown};

use crate::implicit::is_whole;
use crate::new_table::NewTable;
use crate::targets::push_item_targets;
use nl_base::NoMemory;
use std::alloc::Global;
use vlog_design::uses::UseOf;
use vlog_values::{ItemV, Module};

/// Whether the name stands whole and is none of the table.
fn is_unknown(table: &NewTable, near: &mut usize, u: &UseOf) -> bool
    ensures { result ≡ is_unknown table.now (use_of u.now) }
{
    is_whole(u.select) && !table.has_near(near, u.name)
}

fn any_unknown(table: &NewTable, near: &mut usize, uses: &[UseOf]) -> bool
    ensures { result ≡ list_any (is_unknown table.now) (uses_of uses.now) }
{
    for u in uses {
        if is_unknown(table, near, u) {
            return true;
        }
    }
    false
}

/// Whether a target in an item is unknown. The list has room for its targets.
fn has_unknown_in<'a>(
    table: &NewTable,
    near: &mut usize,
    item: &'a ItemV,
    targets: &mut Vec<UseOf<'a>>,
) -> Result<bool, NoMemory>
    ensures { IfOk result (λ unknown. unknown
        ≡ list_any (is_unknown table.now) (flat_map uses (item_targets item.now))) }
{
    targets.clear();
    push_item_targets(item, targets)?;
    Ok(any_unknown(table, near, targets))
}

/// Whether a target in some of the items is unknown. No list of all of them is made.
fn has_unknown(alloc: Global, table: &NewTable, items: &[ItemV]) -> Result<bool, NoMemory>
    ensures { IfOk result (λ unknown. unknown
        ≡ list_any (is_unknown table.now) (flat_map uses (flat_map item_targets items.now))) }
{
    let mut targets = Vec::new(alloc);
    let mut near: usize = 0;
    for item in items {
        let unknown = has_unknown_in(table, &mut near, item, &mut targets)?;
        if unknown {
            return Ok(true);
        }
    }
    Ok(false)
}

/// Whether it shows, by the table of its ports and declared nets, that the module has no other nets: `false` says nothing.
pub(crate) fn shows_none(alloc: Global, m: &Module, table: &NewTable) -> Result<bool, NoMemory>
    requires { table.now ≡ declared_signals m.now }
    ensures { IfOk result (λ shown. shown ≡ true → implicit_names m.now ≡ []) }
{
    if !m.implicit {
        return Ok(true);
    }
    let unknown = has_unknown(alloc, table, m.items.items())?;
    Ok(!unknown)
}
