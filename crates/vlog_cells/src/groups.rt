// Values under names.
use indexmap::IndexMap;
use nl_base::NoMemory;
use std::alloc::Global;
use std::marker::Model;

/// Values under names, those of one name in the order in which they were added.
#[derive(Drop)]
pub struct Groups<'a, T> {
    lists: IndexMap<&'a [u8], Vec<T>>,
}

impl<'a, T> Model for Groups<'a, T> {
    ghost use Rattle.std.specs.Prelude.{List, ℕ};
    ghost use Rattle.vlog_cells.specs.Groups.{groups_of};

    ghost Value = { List (List ℕ × List T) };

    ghost view = { λ g. groups_of g.lists.entries };
}

ghost use Rattle.std.specs.Prelude.{◌≡◌, [], ◌++◌, ◌∷◌, List, ℕ, bytes_eq, OnOk, if◌then◌else◌};
ghost use Rattle.vlog_cells.specs.Groups.{under};

impl<'a, T> Groups<'a, T> {
    /// No values; it takes no memory.
    pub fn empty(alloc: Global) -> Groups<'a, T>
        ensures { result ≡ [] }
    {
        Groups {
            lists: IndexMap::new(alloc),
        }
    }

    /// The values under the name.
    pub fn of(&self, name: &[u8]) -> &[T]
        ensures { result.now ≡ under self.now name.now }
    {
        // Most modules have no such values, and the name is then not hashed.
        if self.lists.is_empty() {
            return &[];
        }
        match self.lists.get(name) {
            None => &[],
            Some(list) => list.as_slice(),
        }
    }
}

impl<'a, T: Drop> Groups<'a, T> {
    /// Adds the value under the name.
    pub fn add(&mut self, alloc: Global, name: &'a [u8], value: T) -> Result<(), NoMemory>
        ensures added { OnOk result ((key : List ℕ)
            → under self.new key ≡ under self.old key
            ++ (if bytes_eq key name.now then value ∷ [] else [])) }
    {
        if let Some(place) = self.lists.get_index_of(name) {
            self.lists[place].push(value)?;
            return Ok(());
        }
        let mut list = Vec::new(alloc);
        list.push(value)?;
        if let Ok(_) = self.lists.insert(name, list) {
            return Ok(());
        }
        Err(NoMemory)
    }
}
