// The order of a graph's numbers, each after those below it, by a walk that keeps a list of its own.
ghost use Rattle.std.specs.Prelude.{ℕ, ◌≡◌, ◌<◌, length, IfOk, IsSome, MatchOption};
ghost use Rattle.net_graph.specs.Graph.{IsInRange, IsPostorder, IsReached, ReachesItself};

use crate::below::numbers_below;
use nl_base::{NoMemory, Seq};
use std::alloc::Global;

/// A number that the walk has come to, and how many of the numbers below it the walk has followed.
#[derive(Clone, Copy)]
pub struct Visit {
    pub number: u32,
    pub followed: usize,
}

/// The postorder of the depth-first walk from the start, where no number that is reached from the start reaches itself; nothing
/// only where some number does.
pub fn postorder(
    alloc: Global,
    graph: &[Seq<u32>],
    start: u32,
) -> Result<Option<Vec<u32>>, NoMemory>
    requires in_range { IsInRange graph.now }
    requires within { start < length graph.now }
    ensures order { IfOk result
        (λ found. MatchOption found ((number : ℕ)
        × ReachesItself graph.now number) (λ order. IsPostorder graph.now start order.items)) }
    ensures free { IfOk result
        (λ found. IsSome found → (number : ℕ) → IsReached graph.now start number
        → ¬ ReachesItself graph.now number) }
{
    let mut order = Vec::new(alloc);
    let mut seen = vec![in alloc; false; graph.len()]?;
    let mut listed = vec![in alloc; false; graph.len()]?;
    let mut stack = Vec::new(alloc);
    stack.push(Visit {
        number: start,
        followed: 0,
    })?;
    seen[start as usize] = true;
    while let Some(visit) = stack.pop() {
        let numbers = numbers_below(graph, visit.number);
        if visit.followed < numbers.len() {
            let below = numbers[visit.followed];
            stack.push(Visit {
                number: visit.number,
                followed: visit.followed + 1,
            })?;
            if !seen[below as usize] {
                seen[below as usize] = true;
                stack.push(Visit {
                    number: below,
                    followed: 0,
                })?;
            } else if !listed[below as usize] {
                return Ok(None);
            }
        } else {
            listed[visit.number as usize] = true;
            order.push(visit.number)?;
        }
    }
    Ok(Some(order))
}
