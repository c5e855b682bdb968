// Identifiers for many names of which none begins with the stem. A name whose digest is noted once is alike no other one, and only the others go to a table.
ghost use Rattle.std.specs.Prelude.{◌≡◌, ◌&&◌, ◌^◌, ◌<◌, false, length, map, not, true, IfOk, OnOk};
ghost use Rattle.std.specs.List.{list_any};
ghost use Rattle.digests.specs.Sets.{AreNoted};
ghost use Rattle.net_bits.specs.Names.{has_name};
ghost use Rattle.net_bits.specs.NameTables.{digest_of};
ghost use Rattle.edif_spaces.specs.Many.{given_with, is_met_again as is_met_again_text, is_own_by};
ghost use Rattle.edif_spaces.specs.Plain.{has_stem as has_stem_text};
ghost use Rattle.edif_spaces.specs.Spaces.{AreIdents};

use crate::plain::plain_ident;
use crate::space::can_be_own;
use digests::Digests;
use net_bits::{Names, digest};
use nl_base::{Ident, NoMemory, Seq};
use std::alloc::Global;

/// The digests of the names, which are the same for names that are alike up to case.
fn digests_of(alloc: Global, names: &[&[u8]]) -> Result<Digests, NoMemory>
    ensures { IfOk result (λ digests. AreNoted digests
        (map (digest_of true) (map (λ name. name.now) names.now))) }
{
    let mut digests = Digests::with_room(alloc, names.len())?;
    for name in names {
        digests.note(digest(name, true));
    }
    Ok(digests)
}

/// Whether the digest of the name is noted again.
fn is_met_again(digests: &Digests, name: &[u8]) -> bool
    ensures { result ≡ is_met_again_text digests.now name.now }
{
    digests.is_again(digest(name, true))
}

/// Whether the name is its own identifier, where the set has the identifiers that are their own names and of which the digest is noted again. Then it
/// is added to them, if its digest is.
fn is_own(
    alloc: Global,
    digests: &Digests,
    given: &mut Names,
    name: &[u8],
) -> Result<bool, NoMemory>
    ensures own { IfOk result (λ own. own ≡ is_own_by digests.now given.old name.now) }
    ensures added { OnOk result (given.new ≡ given_with digests.now given.old name.now) }
{
    if !can_be_own(name) {
        return Ok(false);
    }
    if !is_met_again(digests, name) {
        return Ok(true);
    }
    let new = given.add(alloc, name)?;
    Ok(new)
}

/// Identifiers for names of one name space, none of which begins with the stem and of which the digests are noted.
fn idents_by(alloc: Global, digests: &Digests, names: &[&[u8]]) -> Result<Seq<Ident>, NoMemory>
    requires noted { AreNoted digests.now
        (map (digest_of true) (map (λ name. name.now) names.now)) }
    requires stem { list_any has_stem_text (map (λ name. name.now) names.now) ≡ false }
    requires fewer { length names.now < 2 ^ 32 }
    ensures { IfOk result (AreIdents (map (λ name. name.now) names.now)) }
{
    let mut given = Names::new(alloc, true);
    let mut idents = Vec::with_capacity(alloc, names.len())?;
    let mut from = 0;
    for name in names {
        let is_own = is_own(alloc, digests, &mut given, name)?;
        let (ident, next) = plain_ident(alloc, is_own, from, name)?;
        idents.push(ident)?;
        from = next;
    }
    Ok(Seq::of(idents))
}

/// Identifiers for many names of one name space, none of which begins with the stem.
pub(crate) fn many_idents(alloc: Global, names: &[&[u8]]) -> Result<Seq<Ident>, NoMemory>
    requires stem { list_any has_stem_text (map (λ name. name.now) names.now) ≡ false }
    requires fewer { length names.now < 2 ^ 32 }
    ensures { IfOk result (AreIdents (map (λ name. name.now) names.now)) }
{
    let digests = digests_of(alloc, names)?;
    let idents = idents_by(alloc, &digests, names)?;
    Ok(idents)
}
