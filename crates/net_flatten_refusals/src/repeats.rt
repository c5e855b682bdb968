// Leaves with the joined name of a leaf before them.
ghost use Rattle.std.specs.Prelude.{ℕ, ◌≡◌, ◌<◌, List, [], All, bytes_eq, length, map, IfOk};
ghost use Rattle.std.specs.List.{list_any};
ghost use Rattle.flat_numbers.specs.Spots.{AreSpots};
ghost use Rattle.flat_classes.specs.Ways.{ArePaths};
ghost use Rattle.net_flatten_refusals.specs.PathDigests.{digests_of};
ghost use Rattle.net_flatten_rules.specs.Joined.{name_at};
ghost use Rattle.net_flatten_rules.specs.Rules.{first_of, repeated};
ghost use Rattle.net_hier.specs.Paths.{Path};

use crate::digested::Digested;
use crate::digests::digests_of;
use flat_classes::Spot;
use net_flatten_rules::joined_name;
use net_hier::Hier;
use nl_base::{NoMemory, Text};
use std::alloc::Global;

/// The joined name of a spot as a text.
pub fn name_at(alloc: Global, hier: &Hier, spots: &[Spot], spot: u32) -> Result<Text, NoMemory>
    requires spots { AreSpots hier.now spots.now }
    requires spot { spot < length spots.now }
    ensures { IfOk result (λ name. (paths : List Path) → ArePaths hier.now.cells spots.now paths →
        name ≡ name_at paths spot) }
{
    let _cells = hier.cells();
    let name = joined_name(alloc, hier, spots, spot)?;
    let text = Text::of(alloc, name)?;
    Ok(text)
}

/// Whether two spots have one joined name.
fn have_one_name(
    alloc: Global,
    hier: &Hier,
    spots: &[Spot],
    spot: u32,
    other: u32,
) -> Result<bool, NoMemory>
    requires spots { AreSpots hier.now spots.now }
    requires spot { spot < length spots.now }
    requires other { other < length spots.now }
    ensures { IfOk result (λ same. (paths : List Path) → ArePaths hier.now.cells spots.now paths →
        same ≡ bytes_eq (name_at paths spot) (name_at paths other)) }
{
    let name = name_at(alloc, hier, spots, spot)?;
    let second = name_at(alloc, hier, spots, other)?;
    Ok(name.bytes() == second.bytes())
}

/// Whether one of the others has the joined name of the spot.
fn is_among(
    alloc: Global,
    hier: &Hier,
    spots: &[Spot],
    others: &[u32],
    spot: u32,
) -> Result<bool, NoMemory>
    requires spots { AreSpots hier.now spots.now }
    requires others { All (λ other. other < length spots.now) others.now }
    requires spot { spot < length spots.now }
    ensures { IfOk result (λ found. (paths : List Path) → ArePaths hier.now.cells spots.now paths →
        found ≡ list_any (bytes_eq (name_at paths spot)) (map (name_at paths) others.now)) }
{
    for other in others {
        if have_one_name(alloc, hier, spots, spot, *other)? {
            return Ok(true);
        }
    }
    Ok(false)
}

/// The first joined name of a leaf that a leaf before it has, by the digests of the joined names.
fn first_by_digests(
    alloc: Global,
    hier: &Hier,
    spots: &[Spot],
    digests: &[u64],
    leaves: &[u32],
) -> Result<Option<Text>, NoMemory>
    requires spots { AreSpots hier.now spots.now }
    requires leaves { All (λ leaf. leaf < length spots.now) leaves.now }
    requires long { length digests.now ≡ length spots.now }
    requires digests { (paths : List Path) → ArePaths hier.now.cells spots.now paths →
        digests.now ≡ digests_of paths }
    ensures { IfOk result (λ found. (paths : List Path) → ArePaths hier.now.cells spots.now paths →
        found ≡ first_of (repeated [] (map (name_at paths) leaves.now))) }
{
    let mut before = Digested::empty(alloc);
    for leaf in leaves {
        let digest = digests[*leaf as usize];
        if is_among(alloc, hier, spots, before.of(digest), *leaf)? {
            let name = name_at(alloc, hier, spots, *leaf)?;
            return Ok(Some(name));
        }
        before.add(alloc, digest, *leaf)?;
    }
    Ok(None)
}

/// The first joined name of a leaf that a leaf before it has. Two names are in memory only where
/// their digests are equal.
pub fn first_repeated(
    alloc: Global,
    hier: &Hier,
    spots: &[Spot],
    leaves: &[u32],
) -> Result<Option<Text>, NoMemory>
    requires spots { AreSpots hier.now spots.now }
    requires leaves { All (λ leaf. leaf < length spots.now) leaves.now }
    ensures { IfOk result (λ found. (paths : List Path) → ArePaths hier.now.cells spots.now paths →
        found ≡ first_of (repeated [] (map (name_at paths) leaves.now))) }
{
    let digests = digests_of(alloc, hier, spots)?;
    let found = first_by_digests(alloc, hier, spots, digests.as_slice(), leaves)?;
    Ok(found)
}
