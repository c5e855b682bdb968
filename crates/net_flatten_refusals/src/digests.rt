// The digests of joined names.
ghost use Rattle.std.specs.Prelude.{ℕ, ◌≡◌, ◌<◌, List, length, take, IfOk};
ghost use Rattle.flat_numbers.specs.Spots.{AreSpots};
ghost use Rattle.flat_classes.specs.Ways.{ArePaths};
ghost use Rattle.net_flatten_refusals.specs.Digests.{digest_from, digest_of};
ghost use Rattle.net_flatten_refusals.specs.PathDigests.{digests_of};
ghost use Rattle.net_flatten_rules.specs.Joined.{name_at};
ghost use Rattle.net_hier.specs.Paths.{Path};

use flat_classes::Spot;
use net_flatten_rules::instance_at;
use net_hier::Hier;
use nl_base::NoMemory;
use std::alloc::Global;

/// The digest of no bytes.
const NO_BYTES: u64 = 0xcbf2_9ce4_8422_2325;

/// The digest of a text with these bytes behind it, from that of the text: the hash FNV-1a.
fn extended(text: u64, bytes: &[u8]) -> u64
    ensures { result ≡ digest_from text bytes.now }
{
    let mut digest = text;
    for byte in bytes {
        digest = (digest ^ *byte as u64).wrapping_mul(0x100_0000_01b3);
    }
    digest
}

/// The digest of the joined name of a spot, from those of the spots before it.
fn digest_at(hier: &Hier, spots: &[Spot], digests: &[u64], spot: usize) -> u64
    requires spots { AreSpots hier.now spots.now }
    requires spot { spot < length spots.now }
    requires before { length digests.now ≡ spot }
    ensures { (paths : List Path) → ArePaths hier.now.cells spots.now paths →
        digests.now ≡ take spot (digests_of paths) → result ≡ digest_of (name_at paths spot) }
{
    let _cells = hier.cells();
    if spot == 0 {
        return NO_BYTES;
    }
    let parent = spots[spot].parent;
    let name = instance_at(hier, spots, spot).name.bytes();
    if parent == 0 {
        return extended(NO_BYTES, name);
    }
    extended(extended(digests[parent as usize], b"/"), name)
}

/// The digests of the joined names of all spots.
pub fn digests_of(alloc: Global, hier: &Hier, spots: &[Spot]) -> Result<Vec<u64>, NoMemory>
    requires { AreSpots hier.now spots.now }
    ensures long { IfOk result (λ digests. length digests.items ≡ length spots.now) }
    ensures digests { IfOk result (λ digests. (paths : List Path) →
        ArePaths hier.now.cells spots.now paths → digests.items ≡ digests_of paths) }
{
    let mut digests = Vec::new(alloc);
    for spot in 0..spots.len() {
        let digest = digest_at(hier, spots, digests.as_slice(), spot);
        digests.push(digest)?;
    }
    Ok(digests)
}
