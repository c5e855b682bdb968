// A set of names.
ghost use Rattle.std.specs.Prelude.{ℕ, ◌≡◌, ◌↔◌, ◌∷◌, ◌++◌, [], Some, IsTrue, IfOk, slice_get};

use indexmap::IndexSet;
use nl_base::NoMemory;
use std::alloc::Global;
use std::marker::Model;

/// Names that differ, in the order in which they were added.
#[derive(Drop)]
pub struct NameSet<'a> {
    set: IndexSet<&'a [u8]>,
}

impl<'a> Model for NameSet<'a> {
    ghost use Rattle.std.specs.Prelude.{List, ℕ, map};

    ghost Value = { List (List ℕ) };

    ghost view = { λ n. map (λ key. key.now) n.set.keys };
}

impl<'a> NameSet<'a> {
    /// No names; it takes no memory.
    pub fn new(alloc: Global) -> NameSet<'a>
        ensures { result ≡ [] }
    {
        NameSet {
            set: IndexSet::new(alloc),
        }
    }

    /// Adds the name, and answers whether it was not there before.
    pub fn add(&mut self, name: &'a [u8]) -> Result<bool, NoMemory>
        ensures new { IfOk result
            (λ fresh. IsTrue fresh ↔ ((place : ℕ) → ¬ (slice_get self.old place ≡ Some name.now))) }
        ensures added { IfOk result (λ fresh. IsTrue fresh → self.new ≡ self.old ++ name.now ∷ []) }
    {
        if let Ok(fresh) = self.set.insert(name) {
            return Ok(fresh);
        }
        Err(NoMemory)
    }
}
