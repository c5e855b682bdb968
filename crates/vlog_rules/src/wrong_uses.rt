// Whether some name in an expression is no port and no net, or some select means no bits, by one look-up for each name.
ghost use Rattle.std.specs.Prelude.{◌≡◌, flat_map, IfOk};
ghost use Rattle.std.specs.List.{list_any};
ghost use Rattle.vlog_design.specs.Names.{item_exprs, uses};
ghost use Rattle.vlog_design.specs.Uses.{use_of, uses_of};
ghost use Rattle.vlog_rules.specs.WrongUses.{is_wrong};

use crate::selects::is_selected;
use nl_base::NoMemory;
use vlog_design::table::Table;
use vlog_design::uses::{UseOf, push_item_uses};
use vlog_values::ItemV;

/// Whether the name is no port and no net, or the select means no bits.
fn is_wrong(table: &Table, near: &mut usize, u: &UseOf) -> bool
    ensures { result ≡ is_wrong table.now (use_of u.now) }
{
    match table.find_near(near, u.name) {
        None => true,
        Some(slot) => !is_selected(slot.range, u.select),
    }
}

fn any_wrong(table: &Table, near: &mut usize, uses: &[UseOf]) -> bool
    ensures { result ≡ list_any (is_wrong table.now) (uses_of uses.now) }
{
    for u in uses {
        if is_wrong(table, near, u) {
            return true;
        }
    }
    false
}

/// Whether one of the uses in an item is wrong. The list has room for its uses; what stands in it is left.
pub fn has_wrong_use_in<'a>(
    table: &Table,
    near: &mut usize,
    item: &'a ItemV,
    found: &mut Vec<UseOf<'a>>,
) -> Result<bool, NoMemory>
    ensures { IfOk result (λ wrong. wrong
        ≡ list_any (is_wrong table.now) (flat_map uses (item_exprs item.now))) }
{
    found.clear();
    push_item_uses(item, found)?;
    Ok(any_wrong(table, near, found))
}
