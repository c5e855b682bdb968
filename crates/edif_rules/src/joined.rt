// What the references of a net break, and the bits that they mean. Each reference is looked up once.
ghost use Rattle.std.specs.Prelude.{◌≡◌, ◌++◌, map, option_map, option_to_list, IfOk, OnOk};
ghost use Rattle.std.specs.List.{filter_map, flat_map, list_any};
ghost use Rattle.edif_lookup.specs.Refusals.{lowest};
ghost use Rattle.net_hier.specs.declared.nodes.Node.{Node};
ghost use Rattle.edif_design.specs.CellRules.{same_node};
ghost use Rattle.edif_rules.specs.RefRefusals.{ref_refusals_by, ref_node};
ghost use Rattle.edif_rules.specs.Scopes.{lists_of};
ghost use Rattle.edif_rules.specs.Spots.{node_at};

use crate::bits::{BitSpot, TakenBits};
use crate::found::{CellScope, find_port, member_of, spot_of};
use crate::references::{NetNames, found_refusal, unbroken};
use edif_lookup::lower;
use edif_values::PortRef;
use nl_base::{NoMemory, Refusal};
use std::alloc::Global;

/// Adds the bit, where there is one.
fn push_spot(spots: &mut Vec<BitSpot>, spot: Option<BitSpot>) -> Result<(), NoMemory>
    ensures { OnOk result (map node_at spots.new.items
        ≡ map node_at spots.old.items ++ option_to_list (option_map node_at spot)) }
{
    match spot {
        None => Ok(()),
        Some(spot) => {
            spots.push(spot)?;
            Ok(())
        }
    }
}

/// The refusal of a reference; adds the bit that it means to a list.
fn ref_refusal(
    alloc: Global,
    scope: &CellScope<'_, '_>,
    names: &NetNames<'_>,
    taken: &TakenBits,
    spots: &mut Vec<BitSpot>,
    reference: &PortRef,
) -> Result<Option<Refusal>, NoMemory>
    ensures refusal { IfOk result
        (λ made. made ≡ lowest
        (ref_refusals_by
        (lists_of scope.now) names.now.cell.now names.now.net.now taken.now reference.now)) }
    ensures spots { OnOk result (map node_at spots.new.items
        ≡ map node_at spots.old.items
        ++ option_to_list (ref_node (lists_of scope.now) reference.now)) }
{
    let found = find_port(alloc, scope, reference)?;
    push_spot(spots, spot_of(scope, found, member_of(reference)))?;
    let made = found_refusal(alloc, scope, names, taken, reference, found)?;
    Ok(made)
}

/// The first refusal of what a net joins; adds the bits that it has to a list.
fn refs_refusal(
    alloc: Global,
    scope: &CellScope<'_, '_>,
    names: &NetNames<'_>,
    taken: &TakenBits,
    spots: &mut Vec<BitSpot>,
    joined: &[PortRef],
) -> Result<Option<Refusal>, NoMemory>
    ensures refusal { IfOk result
        (λ found. found ≡ lowest
        (flat_map (ref_refusals_by
        (lists_of scope.now) names.now.cell.now names.now.net.now taken.now) joined.now)) }
    ensures spots { OnOk result (map node_at spots.new.items
        ≡ map node_at spots.old.items ++ filter_map (ref_node (lists_of scope.now)) joined.now) }
{
    let mut best = unbroken();
    for reference in joined {
        let next = ref_refusal(alloc, scope, names, taken, spots, reference)?;
        best = lower(best, next);
    }
    Ok(best)
}

/// Adds the bits of a list.
fn add_spots(taken: &mut TakenBits, spots: &[BitSpot]) -> Result<(), NoMemory>
    ensures { OnOk result ((other : Node)
        → list_any (same_node other) taken.new
        ≡ list_any (same_node other) (taken.old ++ map node_at spots.now)) }
{
    for spot in spots {
        taken.add(*spot)?;
    }
    Ok(())
}

/// The first refusal of what a net joins, by the bits that earlier nets have; adds to them those that this net has.
pub fn meet_joined(
    alloc: Global,
    scope: &CellScope<'_, '_>,
    names: &NetNames<'_>,
    taken: &mut TakenBits,
    joined: &[PortRef],
) -> Result<Option<Refusal>, NoMemory>
    ensures refusal { IfOk result
        (λ found. found ≡ lowest
        (flat_map (ref_refusals_by
        (lists_of scope.now) names.now.cell.now names.now.net.now taken.old) joined.now)) }
    ensures bits { OnOk result ((other : Node)
        → list_any (same_node other) taken.new
        ≡ list_any (same_node other) (taken.old
        ++ filter_map (ref_node (lists_of scope.now)) joined.now)) }
{
    let mut spots = Vec::new(alloc);
    let found = refs_refusal(alloc, scope, names, taken, &mut spots, joined)?;
    add_spots(taken, spots.as_slice())?;
    Ok(found)
}
