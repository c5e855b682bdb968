// Which numbers of a graph reach themselves.
ghost use Rattle.std.specs.Prelude.{ℕ, ◌<◌, ◌^◌, length, IfOk, MatchOption};
ghost use Rattle.net_graph.specs.Graph.{IsClosing, IsFirstRecursion, IsInRange, IsRecursionAt, ReachesItself};

use crate::below::numbers_below;
use crate::levels::{first_kept, levels_fall, levels_from};
use crate::reach::mark_reached;
use nl_base::{NoMemory, Seq};
use std::alloc::Global;

/// A number that reaches itself, and the place in its list of the number below it from which it is reached.
#[derive(Clone, Copy)]
pub struct Recursion {
    pub number: u32,
    pub place: usize,
}

// The first place in the number's list from which the number is reached, or nothing exactly where it does not reach itself.
fn closing_place(alloc: Global, graph: &[Seq<u32>], number: u32) -> Result<Option<usize>, NoMemory>
    requires in_range { IsInRange graph.now }
    requires within { number < length graph.now }
    ensures { IfOk result (λ found. MatchOption found (¬ ReachesItself graph.now number)
        (λ place. IsClosing graph.now number place)) }
{
    let numbers = numbers_below(graph, number);
    let mut marks = vec![in alloc; false; graph.len()]?;
    for place in 0..numbers.len() {
        mark_reached(alloc, graph, numbers[place], &mut marks)?;
        if marks[number as usize] {
            return Ok(Some(place));
        }
    }
    Ok(None)
}

// The number with its closing place, or nothing exactly where it does not reach itself.
fn recursion_at(
    alloc: Global,
    graph: &[Seq<u32>],
    number: u32,
) -> Result<Option<Recursion>, NoMemory>
    requires in_range { IsInRange graph.now }
    requires within { number < length graph.now }
    ensures { IfOk result (λ found. MatchOption found (¬ ReachesItself graph.now number)
        (λ recursion. IsRecursionAt graph.now number recursion.number recursion.place)) }
{
    let Some(place) = closing_place(alloc, graph, number)? else {
        return Ok(None);
    };
    Ok(Some(Recursion { number, place }))
}

// The same as `first_recursion`, by a search from each number.
fn search_recursion(alloc: Global, graph: &[Seq<u32>]) -> Result<Option<Recursion>, NoMemory>
    requires in_range { IsInRange graph.now }
    requires short { length graph.now < 2 ^ 32 }
    ensures { IfOk result (λ found. MatchOption found ((number : ℕ)
        → ¬ ReachesItself graph.now number)
        (λ recursion. IsFirstRecursion graph.now recursion.number recursion.place)) }
{
    for number in 0..graph.len() as u32 {
        if let Some(recursion) = recursion_at(alloc, graph, number)? {
            return Ok(Some(recursion));
        }
    }
    Ok(None)
}

/// The least number of the graph that reaches itself, and the first place in its list from which it is reached; nothing exactly
/// where no number reaches itself. Where all numbers are reached from the start, this takes time in proportion to the graph: the
/// levels are then those of its strongly connected components, and the search from each number is never needed.
pub fn first_recursion(
    alloc: Global,
    graph: &[Seq<u32>],
    start: u32,
) -> Result<Option<Recursion>, NoMemory>
    requires in_range { IsInRange graph.now }
    requires within { start < length graph.now }
    requires short { length graph.now < 2 ^ 32 }
    ensures { IfOk result (λ found. MatchOption found ((number : ℕ)
        → ¬ ReachesItself graph.now number)
        (λ recursion. IsFirstRecursion graph.now recursion.number recursion.place)) }
{
    let levels = levels_from(alloc, graph, start)?;
    if levels_fall(graph, levels.as_slice()) {
        let Some(number) = first_kept(graph, levels.as_slice()) else {
            return Ok(None);
        };
        if let Some(recursion) = recursion_at(alloc, graph, number)? {
            return Ok(Some(recursion));
        }
    }
    let found = search_recursion(alloc, graph)?;
    Ok(found)
}
