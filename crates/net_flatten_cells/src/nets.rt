// The nets of the flattened top, and their joins.
ghost use Rattle.std.specs.Prelude.{◌≡◌, ◌<◌, ◌^◌, ◌++◌, All, length, map, IfOk, OnOk};
ghost use Rattle.std.specs.List.{range_with_len};
ghost use Rattle.flat_classes.specs.Groups.{AreGroupNumbers};
ghost use Rattle.net_flatten_cells.specs.Wired.{AreWithin, HasSpot, HaveSpots, wide};
ghost use Rattle.net_flatten_rules.specs.FlatDesign.{join_at, joins_from, node_of, numbered_net, wired};

use crate::places::Places;
use flat_classes::{Flat, Members, Terminal};
use net_hier::{HNet, Join, Node};
use nl_base::{NoMemory, Seq, Text, spell_u64};
use std::alloc::Global;

/// The node of a terminal in the flattened top.
fn node_of(leaves: &Places, terminal: Terminal) -> Node
    requires { HasSpot leaves.now.count terminal }
    ensures { result ≡ node_of leaves.now.numbers terminal }
{
    match terminal {
        Terminal::Port { port, bit } => Node::Port { port, bit },
        Terminal::Pin { spot, port, bit } => Node::Pin {
            instance: leaves.place(spot),
            port,
            bit,
        },
        Terminal::Zero => Node::Zero,
        Terminal::One => Node::One,
    }
}

/// Adds a join of a net for each terminal of a group.
fn push_joins(
    joins: &mut Seq<Join>,
    terminals: &[Terminal],
    leaves: &Places,
    net: u32,
    members: &[u32],
) -> Result<(), NoMemory>
    requires spots { HaveSpots leaves.now.count terminals.now }
    requires members { All (λ place. place < length terminals.now) members.now }
    ensures { OnOk result (joins.new ≡ joins.old ++ map (join_at terminals.now leaves.now.numbers
        net) members.now) }
{
    for place in members {
        joins.push(Join {
            a: Node::Net(net),
            b: node_of(leaves, terminals[*place as usize]),
        })?;
    }
    Ok(())
}

/// The joins of a net for each group of two or more terminals, and how many nets there are.
fn joins_of(
    alloc: Global,
    terminals: &[Terminal],
    leaves: &Places,
    groups: &Members,
) -> Result<(Seq<Join>, u32), NoMemory>
    requires spots { HaveSpots leaves.now.count terminals.now }
    requires groups { AreWithin (length terminals.now) groups.now }
    requires few { length groups.now < 2 ^ 32 }
    ensures joins { IfOk result (λ made. made.0 ≡ joins_from terminals.now leaves.now.numbers 0
        (wide groups.now)) }
    ensures count { IfOk result (λ made. made.1 ≡ length (wide groups.now)) }
{
    let mut joins = Seq::empty(alloc);
    let mut net: u32 = 0;
    for group in 0..groups.count() {
        let members = groups.of(group);
        if members.len() >= 2 {
            push_joins(&mut joins, terminals, leaves, net, members)?;
            net += 1;
        }
    }
    Ok((joins, net))
}

/// The joins of the flattened top, and how many nets it has.
pub fn flat_joins(alloc: Global, flat: &Flat, leaves: &Places) -> Result<(Seq<Join>, u32), NoMemory>
    requires numbers { AreGroupNumbers flat.now.groups flat.now.count (length
        flat.now.terminals) }
    requires spots { HaveSpots leaves.now.count flat.now.terminals }
    ensures joins { IfOk result (λ made. made.0 ≡ joins_from flat.now.terminals leaves.now.numbers 0
        (wired flat.now)) }
    ensures count { IfOk result (λ made. made.1 ≡ length (wired flat.now)) }
{
    let members = flat.members(alloc)?;
    joins_of(alloc, flat.terminals(), leaves, &members)
}

/// The net of a number.
fn numbered_net(alloc: Global, number: u32) -> Result<HNet, NoMemory>
    ensures { IfOk result (λ net. net ≡ numbered_net number) }
{
    let mut digits = [0; 20];
    let len = spell_u64(number as u64, &mut digits);
    let mut name = Vec::from_slice(alloc, b"n")?;
    name.extend_from_slice(&digits[..len])?;
    let name = Text::of(alloc, name)?;
    Ok(HNet {
        name,
        props: Seq::empty(alloc),
    })
}

/// So many nets.
pub fn nets_of(alloc: Global, count: u32) -> Result<Seq<HNet>, NoMemory>
    ensures { IfOk result (λ nets. nets ≡ map numbered_net (range_with_len 0 count)) }
{
    let mut nets = Seq::empty(alloc);
    for number in 0..count {
        nets.push(numbered_net(alloc, number)?)?;
    }
    Ok(nets)
}
