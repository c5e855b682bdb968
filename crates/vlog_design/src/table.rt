// The names of a module in the order in which they get their numbers.
use crate::signals::Slot;
use indexmap::IndexMap;
use nl_base::NoMemory;
use std::alloc::Global;
use std::marker::Model;

/// The ports and nets of a module by their names. A table that is made with few names has them in a list, which takes less memory than
/// an index and is searched as fast; names that are added behind are in an index.
#[derive(Drop)]
pub struct Table<'a> {
    few: Vec<(&'a [u8], Slot)>,
    slots: IndexMap<&'a [u8], Slot>,
}

impl<'a> Model for Table<'a> {
    ghost use Rattle.std.specs.Prelude.{List, ◌++◌};
    ghost use Rattle.vlog_design.specs.Names.{Signal};
    ghost use Rattle.vlog_design.specs.Tables.{signals_of};

    ghost Value = { List Signal };

    ghost view = { λ t. signals_of (t.few.items ++ t.slots.entries) };
}

ghost use Rattle.std.specs.Prelude.{◌≡◌, [], ◌++◌, ◌∷◌, length, slice_get, option_map, IfOk, IfSome, OnErr, Some, is_some, is_none, option_copied, if◌then◌else◌};
ghost use Rattle.vlog_design.specs.Names.{signal_named};
ghost use Rattle.vlog_design.specs.Tables.{signal_of, signals_of};

/// What the name stands for among these.
fn find_among(entries: &[(&[u8], Slot)], name: &[u8]) -> Option<Slot>
    ensures { result ≡ signal_named (signals_of entries.now) name.now }
{
    for entry in entries {
        if name == entry.0 {
            return Some(entry.1);
        }
    }
    None
}

/// What the name stands for among these, where it is the name of this number.
fn slot_at(slots: &IndexMap<&[u8], Slot>, number: usize, name: &[u8]) -> Option<Slot>
    ensures { IfSome result
        (λ slot. signal_named (signals_of slots.now.entries) name.now ≡ Some slot) }
{
    if let Some((key, slot)) = slots.get_index(number) {
        if *key == name {
            return Some(*slot);
        }
    }
    None
}

/// What the name stands for among these, which is looked for at the number `near` and behind it before a search.
fn slot_near(slots: &IndexMap<&[u8], Slot>, near: &mut usize, name: &[u8]) -> Option<Slot>
    ensures { result ≡ signal_named (signals_of slots.now.entries) name.now }
{
    if let Some(slot) = slot_at(slots, *near, name) {
        return Some(slot);
    }
    let next = near.saturating_add(1);
    if let Some(slot) = slot_at(slots, next, name) {
        *near = next;
        return Some(slot);
    }
    match slots.get_full(name) {
        None => None,
        Some((number, _, slot)) => {
            *near = number;
            Some(*slot)
        }
    }
}

/// Adds a name at the end, and answers whether it was new. It is looked up once, as it is added; one that was there gets back what it
/// stood for.
fn add_slot<'a>(
    slots: &mut IndexMap<&'a [u8], Slot>,
    name: &'a [u8],
    slot: Slot,
) -> Result<bool, NoMemory>
    ensures answer { IfOk result
        (λ new. new ≡ is_none (signal_named (signals_of slots.old.entries) name.now)) }
    ensures added { IfOk result
        (λ new. signals_of slots.new.entries ≡ signals_of slots.old.entries
        ++ (if new then record { name = name.now; slot = slot } ∷ [] else [])) }
    ensures kept { OnErr result (signals_of slots.new.entries ≡ signals_of slots.old.entries) }
{
    if let Ok(before) = slots.insert(name, slot) {
        if let Some(known) = before {
            if let Ok(_) = slots.insert(name, known) {
                return Ok(false);
            }
            return Err(NoMemory);
        }
        return Ok(true);
    }
    Err(NoMemory)
}

impl<'a> Table<'a> {
    pub fn empty(alloc: Global) -> Table<'a>
        ensures { result ≡ [] }
    {
        Table {
            few: Vec::new(alloc),
            slots: IndexMap::new(alloc),
        }
    }

    /// An empty table with room for so many names.
    pub fn with_room(alloc: Global, count: usize) -> Result<Table<'a>, NoMemory>
        ensures { IfOk result (λ table. table ≡ []) }
    {
        Ok(Table {
            few: Vec::new(alloc),
            slots: IndexMap::with_capacity(alloc, count)?,
        })
    }

    /// The table of these names, which are few.
    pub fn of_few(alloc: Global, entries: &[(&'a [u8], Slot)]) -> Result<Table<'a>, NoMemory>
        ensures { IfOk result (λ table. table ≡ signals_of entries.now) }
    {
        let mut few = Vec::with_capacity(alloc, entries.len())?;
        few.extend_from_slice(entries)?;
        Ok(Table {
            few,
            slots: IndexMap::new(alloc),
        })
    }

    /// What the name stands for.
    pub fn find(&self, name: &[u8]) -> Option<Slot>
        ensures { result ≡ signal_named self.now name.now }
    {
        match find_among(self.few.as_slice(), name) {
            Some(slot) => Some(slot),
            None => self.slots.get(name).copied(),
        }
    }

    /// What the name stands for, found without a search where it is the name of this number.
    pub fn find_at(&self, number: usize, name: &[u8]) -> Option<Slot>
        ensures { result ≡ signal_named self.now name.now }
    {
        if self.few.is_empty() {
            if let Some(slot) = slot_at(&self.slots, number, name) {
                return Some(slot);
            }
        }
        self.find(name)
    }

    /// What the name stands for. Names that are used together often stand together in the text: the name of the number `near` and the
    /// one behind it are tried before a search, and `near` is then the number of the name that was found.
    pub fn find_near(&self, near: &mut usize, name: &[u8]) -> Option<Slot>
        ensures { result ≡ signal_named self.now name.now }
    {
        if self.few.is_empty() {
            return slot_near(&self.slots, near, name);
        }
        self.find(name)
    }

    /// How many names there are.
    pub fn len(&self) -> usize
        ensures { result ≡ length self.now }
    {
        self.few.len() + self.slots.len()
    }

    /// The name of this number, and what it stands for.
    pub fn entry(&self, number: usize) -> Option<(&'a [u8], Slot)>
        ensures { option_map signal_of result ≡ slice_get self.now number }
    {
        let few = self.few.as_slice();
        if number < few.len() {
            return Some((few[number].0, few[number].1));
        }
        match self.slots.get_index(number - few.len()) {
            None => None,
            Some((name, slot)) => Some((*name, *slot)),
        }
    }

    /// Adds a name at the end, and answers whether it was new.
    pub fn add(&mut self, name: &'a [u8], slot: Slot) -> Result<bool, NoMemory>
        ensures answer { IfOk result (λ new. new ≡ is_none (signal_named self.old name.now)) }
        ensures added { IfOk result
            (λ new. self.new ≡ self.old
            ++ (if new then record { name = name.now; slot = slot } ∷ [] else [])) }
        ensures kept { OnErr result (self.new ≡ self.old) }
    {
        if find_among(self.few.as_slice(), name).is_some() {
            return Ok(false);
        }
        add_slot(&mut self.slots, name, slot)
    }
}
