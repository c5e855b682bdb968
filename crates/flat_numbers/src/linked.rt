// Which numbers are linked by joins.
ghost use Rattle.std.specs.Prelude.{ℕ, ◌≡◌, ◌<◌, ◌≤◌, ◌+◌, ◌++◌, ◌∷◌, [], List, length, IfOk};
ghost use Rattle.std.specs.List.{range_with_len};
ghost use Rattle.flat_numbers.specs.declared.joins.NumberJoin.{NumberJoin};
ghost use Rattle.flat_numbers.specs.Forest.{HasLabels};
ghost use Rattle.flat_numbers.specs.Linked.{AreAlike, AreLabels, label};

use crate::joins::NumberJoin;
use nl_base::NoMemory;
use std::alloc::Global;

/// The number to which the parents lead. Each number on the way gets the parent of its parent, so
/// that later ways are shorter.
fn root_of(parents: &mut [u32], number: u32) -> u32
    requires number { number < length parents.old }
    requires labels { (labels : List ℕ) × HasLabels parents.old labels }
    ensures len { length parents.new ≡ length parents.old }
    ensures root { (labels : List ℕ) → HasLabels parents.old labels → result ≡ label labels number }
    ensures kept { (labels : List ℕ) → HasLabels parents.old labels → HasLabels parents.new labels }
{
    let mut at = number;
    while parents[at as usize] != at {
        let above = parents[parents[at as usize] as usize];
        parents[at as usize] = above;
        at = above;
    }
    at
}

/// Lets the greater of the roots of the two numbers lead to the lesser.
pub(crate) fn join_roots(parents: &mut [u32], join: NumberJoin)
    requires a { join.a < length parents.old }
    requires b { join.b < length parents.old }
    requires labels { (labels : List ℕ) × HasLabels parents.old labels }
    ensures len { length parents.new ≡ length parents.old }
    ensures joined { (joins : List NumberJoin) (labels : List ℕ) → HasLabels parents.old labels →
        AreLabels (length parents.old) joins labels
        → (others : List ℕ) × HasLabels parents.new others × AreLabels (length parents.old) (joins ++ join ∷ []) others }
{
    let a = root_of(parents, join.a);
    let b = root_of(parents, join.b);
    if a < b {
        parents[b as usize] = a;
    } else {
        parents[a as usize] = b;
    }
}

/// Each number as its own parent.
pub(crate) fn own_parents(alloc: Global, count: u32) -> Result<Vec<u32>, NoMemory>
    ensures { IfOk result (λ parents. parents.items ≡ range_with_len 0 count) }
{
    let mut parents = Vec::with_capacity(alloc, count as usize)?;
    for number in 0..count {
        parents.push(number)?;
    }
    Ok(parents)
}

/// Gives each number its root as parent. The parent of a number is not greater, so it has its root
/// already.
pub(crate) fn settle(parents: &mut [u32])
    requires labels { (labels : List ℕ) × HasLabels parents.old labels }
    ensures { (labels : List ℕ) → HasLabels parents.old labels → AreAlike parents.new labels }
{
    for number in 0..parents.len() {
        parents[number] = parents[parents[number] as usize];
    }
}
