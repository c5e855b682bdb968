// Names that are too long for a flattened design.
ghost use Rattle.std.specs.Prelude.{ℕ, ◌≡◌, ◌≢◌, ◌<◌, ◌++◌, List, All, length, IfOk};
ghost use Rattle.flat_numbers.specs.Spots.{AreSpots};
ghost use Rattle.flat_classes.specs.Ways.{ArePaths};
ghost use Rattle.net_flatten_refusals.specs.LongNames.{long_leaf, refused_stub, refused_stubs, refused_in, refused_leaves, refused_names, refused_top};
ghost use Rattle.net_flatten_rules.specs.Rules.{IsFirst, first_of, long_in_design};
ghost use Rattle.net_hier.specs.Paths.{Path};

use crate::repeats::name_at;
use flat_classes::Spot;
use net_flatten_rules::{
    Broken, FlattenRule, Long, in_props, in_stub, instance_at, is_long, leaf_cells, refuse_one,
    refuse_two,
};
use net_hier::{HCell, Hier};
use nl_base::NoMemory;
use std::alloc::Global;

/// The refusal of a name of a cell that is too long, where there is one.
fn refuse_long(
    alloc: Global,
    cell: &[u8],
    found: Option<Long<'_>>,
) -> Result<Option<Broken>, NoMemory>
    ensures { (objects : List (List (List ℕ))) → IsFirst objects found.entry →
        IfOk result (λ broken. broken ≡ first_of (refused_in cell.now objects)) }
{
    match found {
        None => Ok(None),
        Some(long) => {
            let broken = refuse_two(alloc, FlattenRule::F2, cell, long.kind, long.name)?;
            Ok(Some(broken))
        }
    }
}

/// That of a leaf's instance in a cell: its joined name, and the names of its properties.
fn long_in_leaf(
    alloc: Global,
    hier: &Hier,
    spots: &[Spot],
    cell: &[u8],
    leaf: u32,
) -> Result<Option<Broken>, NoMemory>
    requires spots { AreSpots hier.now spots.now }
    requires leaf { leaf < length spots.now }
    requires below { leaf ≢ 0 }
    ensures { IfOk result (λ broken. (paths : List Path) →
        ArePaths hier.now.cells spots.now paths →
        broken ≡ first_of (refused_in cell.now (long_leaf hier.now.cells spots.now paths leaf))) }
{
    let _cells = hier.cells();
    let name = name_at(alloc, hier, spots, leaf)?;
    if is_long(name.bytes()) {
        let broken = refuse_two(alloc, FlattenRule::F2, cell, b"instance", name.bytes())?;
        return Ok(Some(broken));
    }
    let instance = instance_at(hier, spots, leaf as usize);
    let broken = refuse_long(alloc, cell, in_props(instance.props.items()))?;
    Ok(broken)
}

/// The first of those of leaves' instances in a cell.
fn long_in_leaves(
    alloc: Global,
    hier: &Hier,
    spots: &[Spot],
    cell: &[u8],
    leaves: &[u32],
) -> Result<Option<Broken>, NoMemory>
    requires spots { AreSpots hier.now spots.now }
    requires leaves { All (λ leaf. leaf < length spots.now) leaves.now }
    requires below { All (λ leaf. leaf ≢ 0) leaves.now }
    ensures { IfOk result (λ broken. (paths : List Path) →
        ArePaths hier.now.cells spots.now paths → broken
        ≡ first_of (refused_leaves hier.now.cells spots.now paths cell.now leaves.now)) }
{
    for leaf in leaves {
        if let Some(broken) = long_in_leaf(alloc, hier, spots, cell, *leaf)? {
            return Ok(Some(broken));
        }
    }
    Ok(None)
}

/// That of a cell, its properties and its ports.
fn long_in_stub(alloc: Global, cell: &HCell) -> Result<Option<Broken>, NoMemory>
    ensures { IfOk result (λ broken. broken ≡ first_of (refused_stub cell.now)) }
{
    let broken = refuse_long(alloc, cell.name.bytes(), in_stub(cell))?;
    Ok(broken)
}

/// The first of those of the cells of these numbers.
fn long_in_stubs(alloc: Global, hier: &Hier, numbers: &[u32]) -> Result<Option<Broken>, NoMemory>
    requires { All (λ number. number < length hier.now.cells) numbers.now }
    ensures { IfOk result (λ broken.
        broken ≡ first_of (refused_stubs hier.now.cells numbers.now)) }
{
    let cells = hier.cells();
    for number in numbers {
        if let Some(broken) = long_in_stub(alloc, &cells[*number as usize])? {
            return Ok(Some(broken));
        }
    }
    Ok(None)
}

/// The first of those of the flattened top.
fn long_in_top(
    alloc: Global,
    hier: &Hier,
    spots: &[Spot],
    leaves: &[u32],
) -> Result<Option<Broken>, NoMemory>
    requires spots { AreSpots hier.now spots.now }
    requires leaves { All (λ leaf. leaf < length spots.now) leaves.now }
    requires below { All (λ leaf. leaf ≢ 0) leaves.now }
    ensures { IfOk result (λ broken. (paths : List Path) →
        ArePaths hier.now.cells spots.now paths → broken ≡ first_of
        (refused_top hier.now spots.now paths leaves.now)) }
{
    let top = &hier.cells()[hier.top() as usize];
    if let Some(broken) = long_in_stub(alloc, top)? {
        return Ok(Some(broken));
    }
    long_in_leaves(alloc, hier, spots, top.name.bytes(), leaves)
}

/// That of the design: the first of its properties whose name is too long.
fn long_in_design(alloc: Global, hier: &Hier) -> Result<Option<Broken>, NoMemory>
    ensures { IfOk result (λ broken. broken ≡ first_of (long_in_design hier.now)) }
{
    let top = &hier.cells()[hier.top() as usize];
    for prop in hier.props() {
        if is_long(prop.name.bytes()) {
            let name = top.name.bytes();
            let broken = refuse_one(alloc, FlattenRule::F2, name, prop.name.bytes())?;
            return Ok(Some(broken));
        }
    }
    Ok(None)
}

/// The first of those of the flattened top, and then of the design.
fn long_in_rest(
    alloc: Global,
    hier: &Hier,
    spots: &[Spot],
    leaves: &[u32],
) -> Result<Option<Broken>, NoMemory>
    requires spots { AreSpots hier.now spots.now }
    requires leaves { All (λ leaf. leaf < length spots.now) leaves.now }
    requires below { All (λ leaf. leaf ≢ 0) leaves.now }
    ensures { IfOk result (λ broken. (paths : List Path) →
        ArePaths hier.now.cells spots.now paths → broken ≡ first_of
        (refused_top hier.now spots.now paths leaves.now ++ long_in_design hier.now)) }
{
    if let Some(broken) = long_in_top(alloc, hier, spots, leaves)? {
        return Ok(Some(broken));
    }
    let broken = long_in_design(alloc, hier)?;
    Ok(broken)
}

/// The first refusal of a name that is too long: of the cells at the leaves, of the flattened top
/// and of the design.
pub fn first_long(
    alloc: Global,
    hier: &Hier,
    spots: &[Spot],
    leaves: &[u32],
) -> Result<Option<Broken>, NoMemory>
    requires spots { AreSpots hier.now spots.now }
    requires leaves { All (λ leaf. leaf < length spots.now) leaves.now }
    requires below { All (λ leaf. leaf ≢ 0) leaves.now }
    ensures { IfOk result (λ broken. (paths : List Path) →
        ArePaths hier.now.cells spots.now paths → broken ≡ first_of
        (refused_names hier.now spots.now paths leaves.now)) }
{
    let _cells = hier.cells();
    let numbers = leaf_cells(alloc, hier, spots, leaves)?;
    if let Some(broken) = long_in_stubs(alloc, hier, numbers.as_slice())? {
        return Ok(Some(broken));
    }
    let broken = long_in_rest(alloc, hier, spots, leaves)?;
    Ok(broken)
}
