// Which numbers of a graph are reached.
ghost use Rattle.std.specs.Prelude.{◌≡◌, ◌<◌, ◌↔◌, ◌⊎◌, ◌++◌, ◌∷◌, [], ℕ, true, false, All, length, vec_len, IfOk, OnOk, slice_set};
ghost use Rattle.net_graph.specs.Graph.{IsInRange, IsReached};
ghost use Rattle.net_graph.specs.Marks.{is_marked, marks_of};
ghost use Rattle.net_graph.specs.WorkList.{AreClosed, MarksNumbers};

use crate::below::numbers_below;
use nl_base::{NoMemory, Seq};
use std::alloc::Global;

// Marks the number, and lets it wait where it had no mark.
fn mark(marks: &mut Vec<bool>, waiting: &mut Vec<u32>, number: u32) -> Result<(), NoMemory>
    requires { number < vec_len marks.old }
    ensures known { OnOk result (is_marked marks.old.items number ≡ true
        → (marks.new.items ≡ marks.old.items) × (waiting.new.items ≡ waiting.old.items)) }
    ensures unknown { OnOk result (is_marked marks.old.items number ≡ false
        → (marks.new.items ≡ slice_set marks.old.items number true)
        × (waiting.new.items ≡ waiting.old.items ++ number ∷ [])) }
{
    let place = number as usize;
    if marks[place] {
        return Ok(());
    }
    marks[place] = true;
    waiting.push(number)?;
    Ok(())
}

// Marks the numbers, and lets those wait that had no mark.
fn mark_numbers(
    marks: &mut Vec<bool>,
    waiting: &mut Vec<u32>,
    numbers: &[u32],
) -> Result<(), NoMemory>
    requires { All (λ number. number < vec_len marks.old) numbers.now }
    ensures { OnOk result
        (MarksNumbers marks.old.items waiting.old.items numbers.now marks.new.items waiting.new.items) }
{
    for number in numbers {
        mark(marks, waiting, *number)?;
    }
    Ok(())
}

/// Marks the start and all that is reached from it. What stands below a marked number is marked before, and so it is after.
pub fn mark_reached(
    alloc: Global,
    graph: &[Seq<u32>],
    start: u32,
    marks: &mut Vec<bool>,
) -> Result<(), NoMemory>
    requires within { start < length graph.now }
    requires in_range { IsInRange graph.now }
    requires long { vec_len marks.old ≡ length graph.now }
    requires closed { AreClosed graph.now marks.old.items }
    ensures long { OnOk result (vec_len marks.new ≡ length graph.now) }
    ensures closed { OnOk result (AreClosed graph.now marks.new.items) }
    ensures marks { OnOk result ((number : ℕ) → (is_marked marks.new.items number ≡ true)
        ↔ ((is_marked marks.old.items number ≡ true) ⊎ IsReached graph.now start number)) }
{
    let mut waiting = Vec::new(alloc);
    mark(marks, &mut waiting, start)?;
    while let Some(number) = waiting.pop() {
        mark_numbers(marks, &mut waiting, numbers_below(graph, number))?;
    }
    Ok(())
}

/// A mark for each number: whether it is the start or is reached from it.
pub fn reached_from(alloc: Global, graph: &[Seq<u32>], start: u32) -> Result<Vec<bool>, NoMemory>
    requires within { start < length graph.now }
    requires in_range { IsInRange graph.now }
    ensures long { IfOk result (λ marks. vec_len marks ≡ length graph.now) }
    ensures reached { IfOk result
        (λ marks. (number : ℕ) → (is_marked marks.items number ≡ true)
        ↔ IsReached graph.now start number) }
    ensures marks { IfOk result (λ marks. marks.items ≡ marks_of graph.now start) }
{
    let mut marks = vec![in alloc; false; graph.len()]?;
    mark_reached(alloc, graph, start, &mut marks)?;
    Ok(marks)
}
