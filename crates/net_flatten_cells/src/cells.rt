// The cells of a flattened design.
ghost use Rattle.std.specs.Prelude.{◌≡◌, List, length, IfOk};
ghost use Rattle.flat_classes.specs.FlatSums.{IsFewFlat};
ghost use Rattle.flat_classes.specs.Terminals.{AreFlatClasses};
ghost use Rattle.flat_classes.specs.Ways.{ArePaths};
ghost use Rattle.net_flatten_rules.specs.FlatDesign.{flat_cells, flat_top, inner, leaf_cells};
ghost use Rattle.net_hier.specs.Constants.{ConstantNames};
ghost use Rattle.net_hier.specs.Paths.{Path};

use crate::copies::{copy_of, ports_copy, props_copy};
use crate::instances::leaf_instances;
use crate::nets::{flat_joins, nets_of};
use crate::places::Places;
use crate::stubs::stubs_of;
use flat_classes::Flat;
use net_flatten_rules::{inner_leaves, leaf_cells};
use net_hier::{HCell, Hier};
use nl_base::{NoMemory, Seq};
use std::alloc::Global;

/// The top with the leaves as its instances and a net for each group of two or more terminals.
fn flat_top(
    alloc: Global,
    hier: &Hier,
    flat: &Flat,
    cells: &Places,
    leaves: &Places,
) -> Result<HCell, NoMemory>
    requires classes { (names : ConstantNames) × AreFlatClasses names hier.now flat.now }
    requires cells { cells.now ≡ record {
      numbers = leaf_cells hier.now.order flat.now.spots (inner
          flat.now.leaves);
      count = length hier.now.cells;
    } }
    requires leaves { leaves.now ≡ record {
      numbers = inner flat.now.leaves;
      count = length
          flat.now.spots;
    } }
    ensures { IfOk result (λ top. (paths : List Path) → ArePaths hier.now.cells flat.now.spots paths
        → top ≡ flat_top hier.now paths flat.now) }
{
    let instances = leaf_instances(alloc, hier, flat.spots(), cells, leaves.numbers())?;
    let (joins, count) = flat_joins(alloc, flat, leaves)?;
    let top = &hier.cells()[hier.top() as usize];
    Ok(HCell {
        name: copy_of(alloc, &top.name)?,
        ports: ports_copy(alloc, top.ports.items())?,
        instances,
        nets: nets_of(alloc, count)?,
        joins,
        props: props_copy(alloc, top.props.items())?,
    })
}

/// The cells at the leaves below the top, in the order of the design, and then the top as one cell of leaf instances.
pub fn flat_cells(alloc: Global, hier: &Hier, flat: &Flat) -> Result<Seq<HCell>, NoMemory>
    requires classes { (names : ConstantNames) × AreFlatClasses names hier.now flat.now }
    requires few { IsFewFlat hier.now }
    ensures { IfOk result (λ cells. (paths : List Path) → ArePaths hier.now.cells flat.now.spots
        paths → cells ≡ flat_cells hier.now paths flat.now) }
{
    let leaves = inner_leaves(alloc, flat.leaves())?;
    let numbers = leaf_cells(alloc, hier, flat.spots(), leaves.as_slice())?;
    let mut cells = stubs_of(alloc, hier.cells(), numbers.as_slice())?;
    let places = Places::of(alloc, hier.cells().len(), numbers)?;
    let leaves = Places::of(alloc, flat.spots().len(), leaves)?;
    cells.push(flat_top(alloc, hier, flat, &places, &leaves)?)?;
    Ok(cells)
}
