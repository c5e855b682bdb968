ghost use Rattle.std.specs.Prelude.{◌≡◌, ℕ, ◌+◌, ◌*◌, ◌<◌, ◌≤◌, ◌^◌, List, [], ◌∷◌, None, Some, length, map, slice_index, slice_index_or, sum_by, IfOk, OnOk, OnErr, slice_set, ◌++◌};
ghost use Rattle.net_bits.specs.Flood.{AreNumbered, AreMutual, IsNext, IsNumbered, number, unspent};

use crate::adjacency::Adjacency;
use crate::steps::Steps;
use nl_base::NoMemory;
use std::alloc::Global;
use std::sync::ledger::Ledger;

// Gives the number `class` to the node and lets it wait, where it has no number yet.
fn number_node(
    numbers: &mut [Option<u32>],
    work: &mut Vec<u32>,
    node: u32,
    class: u32,
) -> Result<(), NoMemory>
    requires { node < length numbers.old }
    ensures known { OnOk result ((c : ℕ) → number numbers.old node ≡ Some c
        → (numbers.new ≡ numbers.old) × (work.new.items ≡ work.old.items)) }
    ensures unknown { OnOk result (number numbers.old node ≡ None
        → (numbers.new ≡ slice_set numbers.old node (Some class))
        × (work.new.items ≡ work.old.items ++ node ∷ [])) }
    ensures kept { OnErr result (numbers.new ≡ numbers.old) }
{
    if numbers[node as usize].is_some() {
        return Ok(());
    }
    work.push(node)?;
    numbers[node as usize] = Some(class);
    Ok(())
}

/// Gives the number `class` to the root and to all nodes that are connected to it.
fn flood<L: Ledger>(
    adjacency: &Adjacency,
    numbers: &mut [Option<u32>],
    work: &mut Vec<u32>,
    root: u32,
    class: u32,
    steps: &mut Steps<L>,
) -> Result<(), NoMemory>
    requires len { length numbers.old ≡ length adjacency.now.lists }
    requires nodes { length adjacency.now.nodes ≡ length adjacency.now.lists }
    requires lists { AreMutual adjacency.now.lists }
    requires root { root < length adjacency.now.lists }
    requires unnumbered { number numbers.old root ≡ None }
    requires idle { work.old.items ≡ [] }
    requires numbered { IsNumbered (IsNext adjacency.now.lists) numbers.old root class [] }
    ensures idle { OnOk result (work.new.items ≡ []) }
    ensures numbered { OnOk result
        (IsNumbered (IsNext adjacency.now.lists) numbers.new (root + 1) (class + 1) []) }
    ensures cost { steps.new + unspent numbers.new adjacency.now.lists
        ≤ steps.old + unspent numbers.old adjacency.now.lists }
{
    number_node(numbers, work, root, class)?;
    while let Some(node) = work.pop() {
        for place in 0..adjacency.degree(node) {
            let other = adjacency.neighbour(node, place, steps);
            number_node(numbers, work, other, class)?;
        }
    }
    Ok(())
}

// The classes, where each number has one.
fn all_of(alloc: Global, classes: &[Option<u32>]) -> Result<Vec<u32>, NoMemory>
    requires { (v : ℕ) → v < length classes.now → (c : ℕ) × (number classes.now v ≡ Some c) }
    ensures { IfOk result (λ numbers. map Some numbers.items ≡ classes.now) }
{
    let mut numbers = Vec::with_capacity(alloc, classes.len())?;
    for class in classes {
        match class {
            Some(class) => numbers.push(*class)?,
            None => unreachable!(),
        }
    }
    Ok(numbers)
}

/// The number of the class of each node, and how many classes there are. Classes are numbered in the order of their least nodes.
pub fn number_classes<L: Ledger>(
    alloc: Global,
    adjacency: &Adjacency,
    steps: &mut Steps<L>,
) -> Result<(Vec<u32>, u32), NoMemory>
    requires nodes { length adjacency.now.nodes ≡ length adjacency.now.lists }
    requires lists { AreMutual adjacency.now.lists }
    ensures len { IfOk result (λ r. length r.0.items ≡ length adjacency.now.lists) }
    ensures numbers { IfOk result
        (λ r. AreNumbered (IsNext adjacency.now.lists) (map Some r.0.items) r.1) }
    ensures cost { steps.new ≤ steps.old + sum_by length adjacency.now.lists }
{
    let (classes, count) = flood_all(alloc, adjacency, steps)?;
    let numbers = all_of(alloc, classes.as_slice())?;
    Ok((numbers, count))
}

// Floods from the root, where it has no class yet, and answers how many classes there are then.
fn flood_root<L: Ledger>(
    adjacency: &Adjacency,
    numbers: &mut [Option<u32>],
    work: &mut Vec<u32>,
    root: u32,
    class: u32,
    steps: &mut Steps<L>,
) -> Result<u32, NoMemory>
    requires len { length numbers.old ≡ length adjacency.now.lists }
    requires nodes { length adjacency.now.nodes ≡ length adjacency.now.lists }
    requires lists { AreMutual adjacency.now.lists }
    requires root { root < length adjacency.now.lists }
    requires few { class ≤ root }
    requires short { length adjacency.now.nodes < 2 ^ 32 }
    requires numbered { IsNumbered (IsNext adjacency.now.lists) numbers.old root class [] }
    requires idle { work.old.items ≡ [] }
    ensures idle { OnOk result (work.new.items ≡ []) }
    ensures numbered { IfOk result
        (λ count. IsNumbered (IsNext adjacency.now.lists) numbers.new (root + 1) count []) }
    ensures few { IfOk result (λ count. count ≤ root + 1) }
    ensures cost { steps.new + unspent numbers.new adjacency.now.lists
        ≤ steps.old + unspent numbers.old adjacency.now.lists }
{
    if numbers[root as usize].is_some() {
        return Ok(class);
    }
    flood(adjacency, numbers, work, root, class, steps)?;
    Ok(class + 1)
}

// Floods from each node that has no class yet, in order.
fn flood_all<L: Ledger>(
    alloc: Global,
    adjacency: &Adjacency,
    steps: &mut Steps<L>,
) -> Result<(Vec<Option<u32>>, u32), NoMemory>
    requires nodes { length adjacency.now.nodes ≡ length adjacency.now.lists }
    requires lists { AreMutual adjacency.now.lists }
    ensures len { IfOk result (λ r. length r.0.items ≡ length adjacency.now.lists) }
    ensures numbers { IfOk result (λ r. AreNumbered (IsNext adjacency.now.lists) r.0.items r.1) }
    ensures cost { steps.new ≤ steps.old + sum_by length adjacency.now.lists }
{
    let count = adjacency.count();
    let mut numbers = vec![in alloc; None; count as usize]?;
    let mut work = Vec::new(alloc);
    let mut class = 0;
    for root in 0..count {
        class = flood_root(adjacency, &mut numbers, &mut work, root, class, steps)?;
    }
    Ok((numbers, class))
}
