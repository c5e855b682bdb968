// Whether cells that fit are a design.
ghost use Rattle.std.specs.Prelude.{ℕ, ◌≡◌, ◌<◌, ◌≤◌, ◌^◌, List, length, MatchResult};
ghost use Rattle.net_graph.specs.Graph.{HasList, IsInRange, ReachesItself};
ghost use Rattle.net_hier.specs.Build.{IsFaultOf, IsOrderOf, IsPostorderOf, IsRecursionFault};
ghost use Rattle.net_hier.specs.Valid.{CellsFit, count_limit};
ghost use Rattle.net_hier.specs.declared.build.BuildFault.TheVariants.{NoMemory};

use crate::cells::HCell;
use crate::graph::graph_of;
use crate::units::units_of;
use net_graph::order::postorder;
use net_graph::recursion::first_recursion;
use nl_base::Seq;
use std::alloc::{AllocError, Global};

/// The greatest number of units of a design.
pub const UNIT_LIMIT: u64 = 33_554_432;

/// Why cells are no design.
#[derive(Drop)]
pub enum BuildFault {
    /// The first cell in file order that reaches itself, and its first instance whose cell is that cell or reaches it.
    Recursion { cell: u32, instance: u32 },
    /// No cell reaches itself, and the units, this many or 2^64-1 where there are more, pass 33,554,432.
    TooBig(u64),
    /// Memory ran out.
    NoMemory,
}

impl From<nl_base::NoMemory> for BuildFault {
    ghost from_gives = { λ _ e. e ≡ NoMemory };

    fn from(_: nl_base::NoMemory) -> Self {
        BuildFault::NoMemory
    }
}

// The fault of a graph in which a number reaches itself.
fn recursion_fault(alloc: Global, graph: &[Seq<u32>], top: u32) -> BuildFault
    requires in_range { IsInRange graph.now }
    requires within { top < length graph.now }
    requires short { length graph.now < 2 ^ 32 }
    requires few { (number : ℕ) (numbers : List ℕ) → HasList graph.now number numbers
        → length numbers ≤ count_limit }
    requires some { (number : ℕ) × ReachesItself graph.now number }
    ensures { IsRecursionFault graph.now result }
{
    match first_recursion(alloc, graph, top) {
        Ok(Some(recursion)) => BuildFault::Recursion {
            cell: recursion.number,
            instance: recursion.place as u32,
        },
        Ok(None) => unreachable!(),
        Err(_) => BuildFault::NoMemory,
    }
}

// The postorder of cells that fit, or why there is none.
fn postorder_of(alloc: Global, cells: &[HCell], top: u32) -> Result<Vec<u32>, BuildFault>
    requires { CellsFit cells.now top }
    ensures { MatchResult result (λ order. IsPostorderOf cells.now top order.items)
        (IsFaultOf cells.now) }
{
    let graph = graph_of(alloc, cells)?;
    let Some(order) = postorder(alloc, graph.as_slice(), top)? else {
        return Err(recursion_fault(alloc, graph.as_slice(), top));
    };
    Ok(order)
}

/// The order of cells that fit, or why they are no design.
#[tactic(auto, using(crate::proofs::Building::order_kept, crate::proofs::Building::too_big))]
pub fn order_of(alloc: Global, cells: &Seq<HCell>, top: u32) -> Result<Seq<u32>, BuildFault>
    requires { CellsFit cells.now top }
    ensures { MatchResult result (IsOrderOf cells.now top) (IsFaultOf cells.now) }
{
    let order = postorder_of(alloc, cells.items(), top)?;
    let units = units_of(cells.items());
    if units > UNIT_LIMIT {
        return Err(BuildFault::TooBig(units));
    }
    Ok(Seq::of(order))
}
