// The names that stand before a place.
ghost use Rattle.std.specs.Prelude.{◌≡◌, ◌||◌, false, List, ℕ, IfOk, OnErr, OnOk};
ghost use Rattle.nl_base.specs.Case.{same_bytes};
ghost use Rattle.edif_lookup.specs.Refusals.{is_in};

use crate::keys::Name;
use indexmap::IndexSet;
use nl_base::NoMemory;
use std::alloc::Global;
use std::marker::Model;

/// A set of names, seen as a list of them.
#[derive(Drop)]
pub struct NameSet<'a> {
    set: IndexSet<Name<'a>>,
}

impl<'a> Model for NameSet<'a> {
    ghost use Rattle.std.specs.Prelude.{List, ℕ, map};

    ghost Value = { List (List ℕ) };

    ghost view = { λ n. map (λ key. key.bytes.now) n.set.keys };
}

impl<'a> NameSet<'a> {
    /// No names; it takes no memory.
    pub fn new(alloc: Global) -> NameSet<'a>
        ensures { (name : List ℕ) → is_in name result ≡ false }
    {
        NameSet {
            set: IndexSet::new(alloc),
        }
    }

    /// No names, with room for so many.
    pub fn with_room(alloc: Global, names: usize) -> Result<NameSet<'a>, NoMemory>
        ensures { IfOk result (λ made. (name : List ℕ) → is_in name made ≡ false) }
    {
        Ok(NameSet {
            set: IndexSet::with_capacity(alloc, names)?,
        })
    }

    /// Notes a name, and answers whether it was there.
    pub fn note(&mut self, name: &'a [u8]) -> Result<bool, NoMemory>
        ensures known { IfOk result (λ known. known ≡ is_in name.now self.old) }
        ensures noted { OnOk result ((other : List ℕ)
            → is_in other self.new ≡ (same_bytes other name.now || is_in other self.old)) }
        ensures kept { OnErr result (self.new ≡ self.old) }
    {
        if let Ok(fresh) = self.set.insert(Name { bytes: name }) {
            return Ok(!fresh);
        }
        Err(NoMemory)
    }
}
