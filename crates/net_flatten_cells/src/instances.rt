// The instances of the flattened top.
ghost use Rattle.std.specs.Prelude.{◌≡◌, List, length, map, IfOk};
ghost use Rattle.flat_numbers.specs.Spots.{AreSpots};
ghost use Rattle.flat_classes.specs.Ways.{ArePaths};
ghost use Rattle.flat_classes.specs.Ways.{AreInner, IsInner};
ghost use Rattle.net_flatten_rules.specs.FlatDesign.{leaf_instance, props_of};
ghost use Rattle.net_flatten_rules.specs.Joined.{instance_at};
ghost use Rattle.net_hier.specs.Paths.{Path};

use crate::copies::props_copy;
use crate::places::Places;
use flat_classes::Spot;
use net_flatten_rules::{instance_at, joined_name};
use net_hier::{HInst, HProp, Hier};
use nl_base::{NoMemory, Seq, Text};
use std::alloc::Global;

/// The copies of the properties of a leaf: those of the last instance of its path.
fn leaf_props(alloc: Global, hier: &Hier, spots: &[Spot], leaf: u32) -> Result<Seq<HProp>, NoMemory>
    requires { IsInner hier.now.cells spots.now leaf }
    ensures { IfOk result (λ props. props ≡ props_of (instance_at hier.now.cells spots.now leaf)) }
{
    let instance = instance_at(hier, spots, leaf as usize);
    let props = props_copy(alloc, instance.props.items())?;
    Ok(props)
}

/// The instance for a leaf: under its joined name, of its cell, with the properties of the last instance of its path.
fn leaf_instance(
    alloc: Global,
    hier: &Hier,
    spots: &[Spot],
    cells: &Places,
    leaf: u32,
) -> Result<HInst, NoMemory>
    requires spots { AreSpots hier.now spots.now }
    requires count { cells.now.count ≡ length hier.now.cells }
    requires leaf { IsInner hier.now.cells spots.now leaf }
    ensures { IfOk result (λ instance. (paths : List Path) → ArePaths hier.now.cells spots.now paths
        → instance ≡ leaf_instance hier.now.cells spots.now paths cells.now.numbers leaf) }
{
    let _cells = hier.cells();
    let spot = spots[leaf as usize];
    let joined = joined_name(alloc, hier, spots, leaf)?;
    let name = Text::of(alloc, joined)?;
    let cell = cells.place(spot.cell);
    let props = leaf_props(alloc, hier, spots, leaf)?;
    Ok(HInst { name, cell, props })
}

/// The instances for leaves.
pub fn leaf_instances(
    alloc: Global,
    hier: &Hier,
    spots: &[Spot],
    cells: &Places,
    leaves: &[u32],
) -> Result<Seq<HInst>, NoMemory>
    requires spots { AreSpots hier.now spots.now }
    requires count { cells.now.count ≡ length hier.now.cells }
    requires leaves { AreInner hier.now.cells spots.now leaves.now }
    ensures { IfOk result (λ instances. (paths : List Path) → ArePaths hier.now.cells spots.now
        paths → instances ≡ map (leaf_instance hier.now.cells spots.now paths cells.now.numbers)
        leaves.now) }
{
    let mut instances = Seq::empty(alloc);
    for leaf in leaves {
        instances.push(leaf_instance(alloc, hier, spots, cells, *leaf)?)?;
    }
    Ok(instances)
}
