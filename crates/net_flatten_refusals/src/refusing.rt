// The first refusal.
ghost use Rattle.std.specs.Prelude.{ℕ, ◌≡◌, ◌<◌, List, All, length, IfOk};
ghost use Rattle.flat_classes.specs.Terminals.{AreFlatClasses, FlatValue};
ghost use Rattle.flat_numbers.specs.Spots.{AreSpots};
ghost use Rattle.flat_classes.specs.Ways.{ArePaths};
ghost use Rattle.net_flatten_rules.specs.FlatDesign.{inner};
ghost use Rattle.net_flatten_rules.specs.Rules.{first_of, names_twice, refusals};
ghost use Rattle.net_hier.specs.Constants.{ConstantNames};
ghost use Rattle.net_hier.specs.Paths.{Path};

use crate::long_names::first_long;
use crate::repeats::first_repeated;
use flat_classes::{Flat, Spot};
use net_flatten_rules::{Broken, FlattenRule, inner_leaves, refuse_one};
use net_hier::Hier;
use nl_base::NoMemory;
use std::alloc::Global;

/// The first refusal of a joined name that a leaf before has.
fn first_twice(
    alloc: Global,
    hier: &Hier,
    spots: &[Spot],
    leaves: &[u32],
) -> Result<Option<Broken>, NoMemory>
    requires spots { AreSpots hier.now spots.now }
    requires leaves { All (λ leaf. leaf < length spots.now) leaves.now }
    ensures { IfOk result (λ broken. (paths : List Path) (flat : FlatValue) →
        ArePaths hier.now.cells spots.now paths → leaves.now ≡ inner flat.leaves →
        broken ≡ first_of (names_twice hier.now paths flat)) }
{
    let top = &hier.cells()[hier.top() as usize];
    match first_repeated(alloc, hier, spots, leaves)? {
        None => Ok(None),
        Some(name) => {
            let cell = top.name.bytes();
            let broken = refuse_one(alloc, FlattenRule::F1, cell, name.bytes())?;
            Ok(Some(broken))
        }
    }
}

/// The first object that breaks the lower of the rules that the flattened design breaks.
pub fn first_refusal(alloc: Global, hier: &Hier, flat: &Flat) -> Result<Option<Broken>, NoMemory>
    requires { (names : ConstantNames) × AreFlatClasses names hier.now flat.now }
    ensures { IfOk result (λ broken. (paths : List Path) →
        ArePaths hier.now.cells flat.now.spots paths →
        broken ≡ first_of (refusals hier.now paths flat.now)) }
{
    let spots = flat.spots();
    let leaves = inner_leaves(alloc, flat.leaves())?;
    if let Some(broken) = first_twice(alloc, hier, spots, leaves.as_slice())? {
        return Ok(Some(broken));
    }
    let broken = first_long(alloc, hier, spots, leaves.as_slice())?;
    Ok(broken)
}
