// Flattening.
ghost use Rattle.std.specs.Prelude.{ℕ, ◌≡◌, ◌-◌, ◌≤◌, List, [], length, IfOk, MatchResult};
ghost use Rattle.flat_classes.specs.FlatSums.{IsFewFlat};
ghost use Rattle.flat_classes.specs.Terminals.{AreFlatClasses};
ghost use Rattle.flat_classes.specs.Ways.{ArePaths};
ghost use Rattle.net_flatten.specs.Flattening.{IsFlattenError, IsFlattening, flatten_fault, refusal_of};
ghost use Rattle.net_flatten.specs.declared.flattening.FlattenError.TheVariants.{NoMemory};
ghost use Rattle.net_flatten_rules.specs.FlatDesign.{flat_cells};
ghost use Rattle.net_flatten_rules.specs.Rules.{refusals};
ghost use Rattle.net_flatten_rules.specs.SameFlat.{SameFlat};
ghost use Rattle.net_graph.specs.Graph.{ReachesItself};
ghost use Rattle.net_hier.specs.Build.{IsBuilt};
ghost use Rattle.net_hier.specs.Constants.{ConstantNames};
ghost use Rattle.net_hier.specs.Design.{cells_below};
ghost use Rattle.net_hier.specs.Paths.{Path};
ghost use Rattle.net_hier.specs.Units.{units};
ghost use Rattle.net_hier.specs.Valid.{CellsFit, unit_limit};

use flat_classes::{Flat, FlatFault};
use net_flatten_cells::copies::props_copy;
use net_flatten_cells::flat_cells;
use net_flatten_refusals::first_refusal;
use net_flatten_rules::{Broken, FlattenRule};
use net_hier::{BuildFault, Constants, HCell, HProp, Hier};
use nl_base::{NoMemory, Seq, Text};
use std::alloc::Global;

/// Why a design is not flattened.
#[derive(Drop)]
pub enum FlattenError {
    /// The flat count, this one or 2^64-1 where it is larger, is above 2,000,000.
    FlatTooLarge(u64),
    /// The rule is broken by this object of the cell.
    Refused {
        rule: FlattenRule,
        cell: Text,
        names: Seq<Text>,
    },
    /// Memory ran out.
    NoMemory,
}

impl From<NoMemory> for FlattenError {
    ghost from_gives = { λ _ e. e ≡ NoMemory };

    fn from(_: NoMemory) -> Self {
        FlattenError::NoMemory
    }
}

/// Why a design that is not taken apart is not flattened.
fn unflattened(fault: FlatFault) -> FlattenError
    ensures { result ≡ flatten_fault fault }
{
    match fault {
        FlatFault::TooLarge(count) => FlattenError::FlatTooLarge(count),
        FlatFault::NoMemory => FlattenError::NoMemory,
    }
}

/// The design of cells that fit, the last of which is the top.
fn design_of(alloc: Global, cells: Seq<HCell>, props: Seq<HProp>) -> Result<Hier, NoMemory>
    requires fits { CellsFit cells (length cells - 1) }
    requires free { (number : ℕ) → ¬ ReachesItself (cells_below cells) number }
    requires few { units cells ≤ unit_limit }
    ensures { IfOk result (IsBuilt cells (length cells - 1) props) }
{
    let top = (cells.len() - 1) as u32;
    match Hier::build(alloc, cells, top, props) {
        Ok(design) => Ok(design),
        Err(fault) => match fault {
            BuildFault::Recursion {
                cell: _,
                instance: _,
            } => unreachable!(),
            BuildFault::TooBig(_) => unreachable!(),
            BuildFault::NoMemory => Err(NoMemory),
        },
    }
}

/// The flattened design, where there is no refusal.
fn flattened(alloc: Global, hier: &Hier, flat: &Flat) -> Result<Hier, NoMemory>
    requires classes { (names : ConstantNames) × AreFlatClasses names hier.now flat.now }
    requires few { IsFewFlat hier.now }
    requires kept { (paths : List Path) → ArePaths hier.now.cells flat.now.spots paths → refusals
        hier.now paths flat.now ≡ [] }
    ensures { IfOk result (λ design. (paths : List Path) → ArePaths hier.now.cells flat.now.spots
        paths → IsBuilt (flat_cells hier.now paths flat.now) (length (flat_cells hier.now paths
        flat.now) - 1) hier.now.props design) }
{
    let cells = flat_cells(alloc, hier, flat)?;
    let props = props_copy(alloc, hier.props())?;
    let design = design_of(alloc, cells, props)?;
    Ok(design)
}

/// The refusal of an object that breaks a rule.
fn refused(broken: Broken) -> FlattenError
    ensures { result ≡ refusal_of broken }
{
    let Broken { rule, cell, names } = broken;
    FlattenError::Refused { rule, cell, names }
}

/// The flattened design, or the first refusal of one, where the flat count is within the limit.
fn flatten_by(alloc: Global, hier: &Hier, flat: &Flat) -> Result<Hier, FlattenError>
    requires classes { (names : ConstantNames) × AreFlatClasses names hier.now flat.now }
    requires few { IsFewFlat hier.now }
    ensures { (names : ConstantNames) → AreFlatClasses names hier.now flat.now → MatchResult result
        (IsFlattening names hier.now) (IsFlattenError names hier.now) }
{
    let _cells = hier.cells();
    let found = first_refusal(alloc, hier, flat)?;
    match found {
        Some(broken) => Err(refused(broken)),
        None => {
            let design = flattened(alloc, hier, flat)?;
            Ok(design)
        }
    }
}

/// The design as one cell of leaf instances, where its flat count is at most 2,000,000 and it breaks no rule.
pub fn flatten(alloc: Global, hier: &Hier, constants: &Constants) -> Result<Hier, FlattenError>
    ensures answers { MatchResult result (IsFlattening constants.now hier.now) (IsFlattenError
        constants.now hier.now) }
    ensures same { IfOk result (SameFlat constants.now hier.now) }
{
    let _cells = hier.cells();
    match Flat::of(alloc, hier, constants) {
        Ok(flat) => flatten_by(alloc, hier, &flat),
        Err(fault) => Err(unflattened(fault)),
    }
}
