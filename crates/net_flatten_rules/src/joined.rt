// The joined names of leaves.
ghost use Rattle.std.specs.Prelude.{ℕ, ◌≡◌, ◌<◌, List, Some, length, map, IfOk};
ghost use Rattle.flat_numbers.specs.Spots.{AreSpots, IsSpotOf};
ghost use Rattle.flat_classes.specs.Ways.{AreInner, IsInner, IsWay, instance_name};
ghost use Rattle.net_flatten_rules.specs.Joined.{instance_at, joined, names_before};
ghost use Rattle.net_hier.specs.Paths.{Path};

use flat_classes::Spot;
use net_hier::{HInst, Hier};
use nl_base::NoMemory;
use std::alloc::Global;

/// The instance that a spot other than the top's is.
pub fn instance_at<'a>(hier: &'a Hier, spots: &[Spot], spot: usize) -> &'a HInst
    requires { IsInner hier.now.cells spots.now spot }
    ensures instance { instance_at hier.now.cells spots.now spot ≡ Some result.now }
    ensures name { instance_name hier.now.cells spots.now spot ≡ result.now.name }
{
    let cells = hier.cells();
    let place = spots[spot];
    let above = spots[place.parent as usize].cell;
    &cells[above as usize].instances.items()[place.instance as usize]
}

/// The spots from this one up to the top, without the top's.
#[tactic(auto, using(crate::proofs::JoinedLaws::way_there))]
fn way_up(alloc: Global, spots: &[Spot], spot: u32) -> Result<Vec<u32>, NoMemory>
    requires { (way : List ℕ) × IsWay spots.now spot way }
    ensures { IfOk result (λ way. IsWay spots.now spot way.items) }
{
    let mut way = Vec::new(alloc);
    let mut at = spot;
    while at != 0 {
        way.push(at)?;
        at = spots[at as usize].parent;
    }
    Ok(way)
}

/// The names of the spots, the last first, each with `/` behind it.
#[tactic(auto, using(crate::proofs::JoinedLaws::names_more, crate::proofs::JoinedLaws::names_start))]
fn names_before(
    alloc: Global,
    hier: &Hier,
    spots: &[Spot],
    above: &[u32],
) -> Result<Vec<u8>, NoMemory>
    requires { AreInner hier.now.cells spots.now above.now }
    ensures { IfOk result (λ names.
        names.items ≡ names_before (map (instance_name hier.now.cells spots.now) above.now)) }
{
    let mut names = Vec::new(alloc);
    let mut place = above.len();
    while place > 0 {
        place -= 1;
        let instance = instance_at(hier, spots, above[place] as usize);
        names.extend_from_slice(instance.name.bytes())?;
        names.push(b'/')?;
    }
    Ok(names)
}

/// The names of the spots, the last first, with `/` between them.
fn joined_way(alloc: Global, hier: &Hier, spots: &[Spot], way: &[u32]) -> Result<Vec<u8>, NoMemory>
    requires { AreInner hier.now.cells spots.now way.now }
    ensures { IfOk result (λ name.
        name.items ≡ joined (map (instance_name hier.now.cells spots.now) way.now)) }
{
    if let [spot, above @ ..] = way {
        let mut names = names_before(alloc, hier, spots, above)?;
        let instance = instance_at(hier, spots, *spot as usize);
        names.extend_from_slice(instance.name.bytes())?;
        return Ok(names);
    }
    Ok(Vec::new(alloc))
}

/// The joined name of a spot: the names of the instances on the way down from the top, with `/` between them.
pub fn joined_name(
    alloc: Global,
    hier: &Hier,
    spots: &[Spot],
    spot: u32,
) -> Result<Vec<u8>, NoMemory>
    requires spots { AreSpots hier.now spots.now }
    requires spot { spot < length spots.now }
    ensures { IfOk result (λ name. (path : Path) → IsSpotOf hier.now.cells spots.now path spot →
        name.items ≡ joined path) }
{
    let _cells = hier.cells();
    let way = way_up(alloc, spots, spot)?;
    let name = joined_way(alloc, hier, spots, way.as_slice())?;
    Ok(name)
}
