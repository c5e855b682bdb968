// Spots by the digests of their joined names.
ghost use Rattle.std.specs.Prelude.{ℕ, ◌≡◌, ◌==◌, [], ◌∷◌, ◌++◌, if◌then◌else◌, OnOk};
ghost use Rattle.net_flatten_refusals.specs.Digests.{under};

use indexmap::IndexMap;
use nl_base::NoMemory;
use std::alloc::Global;

/// Spots by the digests of their joined names, those of one digest in the order in which they were
/// added.
#[derive(Drop)]
pub struct Digested {
    lists: IndexMap<u64, Vec<u32>>,
}

impl Digested {
    /// No spots; it takes no memory.
    pub fn empty(alloc: Global) -> Digested
        ensures { (digest : ℕ) → under result digest ≡ [] }
    {
        Digested {
            lists: IndexMap::new(alloc),
        }
    }

    /// The spots under a digest.
    pub fn of(&self, digest: u64) -> &[u32]
        ensures { result.now ≡ under self.now digest }
    {
        match self.lists.get(&digest) {
            None => &[],
            Some(list) => list.as_slice(),
        }
    }

    /// Adds a spot under a digest.
    pub fn add(&mut self, alloc: Global, digest: u64, spot: u32) -> Result<(), NoMemory>
        ensures { OnOk result ((other : ℕ) → under self.new other
            ≡ under self.old other ++ (if digest == other then spot ∷ [] else [])) }
    {
        if let Some(place) = self.lists.get_index_of(&digest) {
            self.lists[place].push(spot)?;
            return Ok(());
        }
        let mut list = Vec::new(alloc);
        list.push(spot)?;
        if let Ok(_) = self.lists.insert(digest, list) {
            return Ok(());
        }
        Err(NoMemory)
    }
}
