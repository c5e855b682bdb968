// The joins of the nets of a cell of a design.
ghost use Rattle.std.specs.Prelude.{◌≡◌, ◌≤◌, ◌<◌, ◌^◌, ◌++◌, ℕ, IfOk, OnOk, length, map, option_to_list};
ghost use Rattle.std.specs.List.{flat_map};
ghost use Rattle.edif_design.specs.Parts.{numbered};
ghost use Rattle.edif_rules.specs.RefRefusals.{ref_node};
ghost use Rattle.edif_rules.specs.Lists.{seen};
ghost use Rattle.edif_rules.specs.Scopes.{found_of, lists_of};
ghost use Rattle.edif_rules.specs.Spots.{node_at};
ghost use Rattle.edif_cells.specs.Values.{HasGoodSizes, join_of, joins_of};

use edif_rules::{BitSpot, CellScope, find_port, member_of, spot_of};
use edif_values::{Net, PortRef};
use net_hier::{Join, Node};
use nl_base::{NoMemory, Seq};
use std::alloc::Global;

/// The node of a bit.
fn node_at(spot: BitSpot) -> Node
    requires { spot.bit < 2 ^ 32 }
    ensures { result ≡ node_at spot }
{
    let port = spot.port;
    let bit = spot.bit as u32;
    match spot.instance {
        None => Node::Port { port, bit },
        Some(instance) => Node::Pin {
            instance,
            port,
            bit,
        },
    }
}

/// Adds the join of the net of this number and the bit that a reference means.
fn push_join(
    alloc: Global,
    scope: &CellScope<'_, '_>,
    joins: &mut Seq<Join>,
    net: u32,
    reference: &PortRef,
) -> Result<(), NoMemory>
    requires { HasGoodSizes (lists_of scope.now) }
    ensures { OnOk result (joins.new
        ≡ joins.old ++ map (join_of net)
        (option_to_list (ref_node (lists_of scope.now) reference.now))) }
{
    let found = find_port(alloc, scope, reference)?;
    match spot_of(scope, found, member_of(reference)) {
        None => Ok(()),
        Some(spot) => {
            joins.push(Join {
                a: Node::Net(net),
                b: node_at(spot),
            })?;
            Ok(())
        }
    }
}

/// Adds the joins of the net of this number.
fn push_joins(
    alloc: Global,
    scope: &CellScope<'_, '_>,
    joins: &mut Seq<Join>,
    net: u32,
    joined: &[PortRef],
) -> Result<(), NoMemory>
    requires { HasGoodSizes (lists_of scope.now) }
    ensures { OnOk result (joins.new ≡ joins.old ++ joins_of (lists_of scope.now) net joined.now) }
{
    for reference in joined {
        push_join(alloc, scope, joins, net, reference)?;
    }
    Ok(())
}

/// The joins of the nets of a cell.
pub fn joins_made(
    alloc: Global,
    scope: &CellScope<'_, '_>,
    nets: &[&Net],
) -> Result<Seq<Join>, NoMemory>
    requires good { HasGoodSizes (lists_of scope.now) }
    requires few { length nets.now ≤ 268435456 }
    ensures { IfOk result (λ made. made
        ≡ flat_map (λ net. joins_of (lists_of scope.now) net.0 net.1.joined)
        (numbered (seen nets.now))) }
{
    let mut made = Seq::empty(alloc);
    for (number, net) in nets.iter().enumerate() {
        push_joins(alloc, scope, &mut made, number as u32, net.joined.items())?;
    }
    Ok(made)
}
