// Identifiers for the names of one name space.
ghost use Rattle.std.specs.Prelude.{map, IfOk};
ghost use Rattle.edif_spaces.specs.Spaces.{AreIdents};

use crate::many::many_idents;
use crate::plain::{have_stem, plain_idents};
use crate::space::Space;
use nl_base::{Ident, NoMemory, Seq};
use std::alloc::Global;

/// The identifiers of up to so many names are looked through one by one, and those of more of them by their digests.
const FEW: usize = 64;

/// The numbers of so many identifiers stay far below the greatest one.
const MANY: usize = 1 << 31;

/// Identifiers for names of one name space, of which no two are alike up to case, by a table of those that were given.
fn listed_idents(alloc: Global, names: &[&[u8]]) -> Result<Seq<Ident>, NoMemory>
    ensures { IfOk result (λ idents. AreIdents (map (λ name. name.now) names.now) idents) }
{
    let mut space = Space::with_room(alloc, names.len())?;
    let mut idents = Vec::with_capacity(alloc, names.len())?;
    for name in names {
        let ident = space.ident(alloc, name)?;
        idents.push(ident)?;
    }
    Ok(Seq::of(idents))
}

/// Identifiers for names of one name space, of which no two are alike up to case.
pub fn idents_of(alloc: Global, names: &[&[u8]]) -> Result<Seq<Ident>, NoMemory>
    ensures { IfOk result (λ idents. AreIdents (map (λ name. name.now) names.now) idents) }
{
    if names.len() > MANY || have_stem(names) {
        return listed_idents(alloc, names);
    }
    if names.len() <= FEW {
        return plain_idents(alloc, names);
    }
    many_idents(alloc, names)
}
