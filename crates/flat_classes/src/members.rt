// The groups of connected terminals as lists of places.
ghost use Rattle.std.specs.Prelude.{◌≡◌, ◌<◌, ◌^◌, [], All, length, slice_index_or, IfOk};
ghost use Rattle.flat_classes.specs.Groups.{AreMembers};

use net_bits::parts::{Groups, groups_of, part_of};
use nl_base::NoMemory;
use std::alloc::Global;
use std::marker::Model;

/// For each group the places of its terminals, in order. Contracts see it as the list of these lists, which lie one behind the other.
#[derive(Drop)]
pub struct Members {
    starts: Vec<u32>,
    places: Vec<u32>,
}

impl Model for Members {
    ghost use Rattle.std.specs.Prelude.{ℕ, List, length};
    ghost use Rattle.net_bits.specs.Parts.{AreStarts, parts};

    ghost Value = { List (List ℕ) };

    ghost view = { λ m. parts m.starts.items m.places.items };

    ghost invariant = { λ m. AreStarts m.starts.items (length m.places.items) };
}

impl Members {
    /// How many groups there are.
    pub fn count(&self) -> usize
        ensures { result ≡ length self.now }
    {
        self.starts.len() - 1
    }

    /// The places of the group of this number.
    pub fn of(&self, group: usize) -> &[u32]
        requires { group < length self.now }
        ensures { result.now ≡ slice_index_or self.now group [] }
    {
        part_of(self.starts.as_slice(), self.places.as_slice(), group)
    }
}

/// For each group the places of its terminals, in order.
pub(crate) fn members_of(alloc: Global, groups: &[u32], count: u32) -> Result<Members, NoMemory>
    requires few { length groups.now < 2 ^ 32 }
    requires within { All (λ group. group < count) groups.now }
    ensures { IfOk result (AreMembers groups.now count) }
{
    let Groups { starts, places } = groups_of(alloc, groups, count)?;
    Ok(Members { starts, places })
}
