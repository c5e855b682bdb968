// The marks of what is reached in a graph of numbers.
ghost use Rattle.std.specs.Prelude.{◌≡◌, ◌<◌, ◌↔◌, ℕ, List, true, length};
ghost use Rattle.net_graph.specs.Graph.{IsInRange, IsReached};
ghost use Rattle.net_graph.specs.Marks.{is_marked, marks_of};

/// A number is marked exactly where it is reached from the start and the start is one of the graph. With this the rule on cells that
/// reach themselves, which asks for marks among the cells of a design, asks whether a cell is reached.
pub fn marks_are_reach()
    ensures { (graph : List (List ℕ)) (start number : ℕ) → IsInRange graph
        → (is_marked (marks_of graph start) number ≡ true)
        ↔ ((start < length graph) × IsReached graph start number) }
{}
