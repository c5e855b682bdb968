// The nodes at the ends of joins, and the numbers of the nodes at these ends.
ghost use Rattle.std.specs.Prelude.{◌≡◌, ◌≤◌, ◌<◌, ◌^◌, ◌*◌, ◌-◌, ℕ, All, length, map, slice_set, IfOk, OnOk};
ghost use Rattle.std.specs.List.Sorted.{IsNonDecreasing};
ghost use Rattle.net_bits.specs.Ends.{AreEndNumbers, AreKeys, is_last as is_last_node, other_number, partner_of, with_last};
ghost use Rattle.net_bits.specs.Neighbours.{ends};

use crate::ends::{end_at, place_of, sorted_keys};
use net_hier::{Join, Node};
use nl_base::NoMemory;
use std::alloc::Global;

/// The nodes at the ends of joins, each once and in order, and for each end the number of its node: first that of the first node of a join,
/// then that of its second one.
#[derive(Drop)]
pub(crate) struct Joined {
    pub(crate) nodes: Vec<Node>,
    pub(crate) numbers: Vec<u32>,
}

/// Whether the node is the last of these.
fn is_last(nodes: &[Node], node: &Node) -> bool
    ensures { result ≡ is_last_node nodes.now node.now }
{
    match nodes.last() {
        None => false,
        Some(last) => *last == *node,
    }
}

/// Adds the node, where it is not the last one.
fn add_node(nodes: &mut Vec<Node>, node: Node) -> Result<(), NoMemory>
    ensures { OnOk result (nodes.new.items ≡ with_last nodes.old.items node) }
{
    if is_last(nodes.as_slice(), &node) {
        return Ok(());
    }
    nodes.push(node)?;
    Ok(())
}

/// Gives the end at this place the number of its node, which is the last one or comes behind the last one.
fn number_end(
    nodes: &mut Vec<Node>,
    numbers: &mut Vec<u32>,
    place: usize,
    node: Node,
) -> Result<(), NoMemory>
    requires place { place < length numbers.old.items }
    requires few { length nodes.old.items < 2 ^ 32 }
    ensures nodes { OnOk result (nodes.new.items ≡ with_last nodes.old.items node) }
    ensures numbers { OnOk result (numbers.new.items
        ≡ slice_set numbers.old.items place (length (with_last nodes.old.items node) - 1)) }
{
    add_node(nodes, node)?;
    numbers[place] = (nodes.len() - 1) as u32;
    Ok(())
}

/// The nodes at the ends of the joins, and the numbers of the ends, by the keys of the ends in order.
fn numbered(alloc: Global, joins: &[Join], keys: &[u128]) -> Result<Joined, NoMemory>
    requires few { length joins.now ≤ 33554432 }
    requires sorted { IsNonDecreasing keys.now }
    requires keys { AreKeys (ends joins.now) keys.now }
    ensures { IfOk result (λ joined. AreEndNumbers
        (ends joins.now) joined.nodes.items joined.numbers.items) }
{
    let mut nodes = Vec::with_capacity(alloc, keys.len())?;
    let mut numbers = vec![in alloc; 0; keys.len()]?;
    for key in keys {
        let place = place_of(*key);
        let node = end_at(joins, place);
        number_end(&mut nodes, &mut numbers, place, node)?;
    }
    Ok(Joined { nodes, numbers })
}

/// The nodes at the ends of the joins, each once and in order, and the numbers of the ends.
pub(crate) fn joined_ends(alloc: Global, joins: &[Join]) -> Result<Joined, NoMemory>
    requires { length joins.now ≤ 33554432 }
    ensures { IfOk result (λ joined. AreEndNumbers
        (ends joins.now) joined.nodes.items joined.numbers.items) }
{
    let keys = sorted_keys(alloc, joins)?;
    let joined = numbered(alloc, joins, keys.as_slice())?;
    Ok(joined)
}

/// The place of the other end of the join.
fn partner(place: u32) -> u32
    ensures { result ≡ partner_of place }
{
    if place % 2 == 0 { place + 1 } else { place - 1 }
}

/// For each of these places of ends the number of the node at the other end of the join.
pub(crate) fn other_numbers(
    alloc: Global,
    numbers: &[u32],
    places: &[u32],
) -> Result<Vec<u32>, NoMemory>
    requires even { (half : ℕ) × (length numbers.now ≡ 2 * half) }
    requires within { All (λ place. place < length numbers.now) places.now }
    ensures { IfOk result (λ others. others.items ≡ map (other_number numbers.now) places.now) }
{
    let mut others = Vec::with_capacity(alloc, places.len())?;
    for place in places {
        others.push(numbers[partner(*place) as usize])?;
    }
    Ok(others)
}
