// The table of the names of a module while it is made.
use nl_base::NoMemory;
use std::alloc::Global;
use std::marker::Model;
use vlog_design::signals::Slot;
use vlog_design::table::Table;

/// So many names are few: they are found as fast in a list as by an index.
const FEW: usize = 8;

/// A table that is being made, which contracts see as the list of its names with what they stand for. Few names are in a list. As soon
/// as there are more, an index has all of them.
#[derive(Drop)]
pub struct NewTable<'a> {
    alloc: Global,
    // For how many names the index has room from the first.
    room: usize,
    few: Vec<(&'a [u8], Slot)>,
    // All names, where they are more than few.
    many: Option<Table<'a>>,
}

impl<'a> Model for NewTable<'a> {
    ghost use Rattle.std.specs.Prelude.{List};
    ghost use Rattle.vlog_design.specs.Names.{Signal};
    ghost use Rattle.vlog_design.specs.Tables.{signals_of};
    ghost use Rattle.vlog_scopes.specs.Distinct.{Distinct, signal_names};
    ghost use Rattle.vlog_scopes.specs.Filled.{filled};

    ghost Value = { List Signal };

    ghost view = { λ t. filled t.few.items t.many };

    ghost invariant = { λ t. Distinct (signal_names (signals_of t.few.items)) };
}

ghost use Rattle.std.specs.Prelude.{◌≡◌, [], ◌++◌, ◌∷◌, true, false, not, if◌then◌else◌, IfOk, OnErr};
ghost use Rattle.vlog_design.specs.Names.{has_name};
ghost use Rattle.vlog_design.specs.Tables.{signals_of};
ghost use Rattle.vlog_scopes.specs.Distinct.{Distinct, signal_names};
ghost use Rattle.vlog_scopes.specs.Filled.{filled};

/// Whether one of these has the name.
fn is_among(entries: &[(&[u8], Slot)], name: &[u8]) -> bool
    ensures { result ≡ has_name (signal_names (signals_of entries.now)) name.now }
{
    for entry in entries {
        if name == entry.0 {
            return true;
        }
    }
    false
}

fn push_few<'a>(
    few: &mut Vec<(&'a [u8], Slot)>,
    name: &'a [u8],
    slot: Slot,
) -> Result<bool, NoMemory>
    ensures new { IfOk result (λ new. new ≡ true) }
    ensures added { IfOk result (λ new. signals_of few.new.items
        ≡ signals_of few.old.items ++ record { name = name.now; slot = slot } ∷ []) }
    ensures kept { OnErr result (signals_of few.new.items ≡ signals_of few.old.items) }
{
    if let Ok(_) = few.push((name, slot)) {
        return Ok(true);
    }
    Err(NoMemory)
}

/// The index of these names, with room for so many.
fn index_of<'a>(
    alloc: Global,
    room: usize,
    entries: &[(&'a [u8], Slot)],
) -> Result<Table<'a>, NoMemory>
    requires { Distinct (signal_names (signals_of entries.now)) }
    ensures { IfOk result (λ table. table ≡ signals_of entries.now) }
{
    let mut table = Table::with_room(alloc, room)?;
    for entry in entries {
        table.add(entry.0, entry.1)?;
    }
    Ok(table)
}

/// Adds the name to the index, which is made of the few names where there is none.
fn add_to_many<'a>(
    alloc: Global,
    room: usize,
    few: &[(&'a [u8], Slot)],
    many: &mut Option<Table<'a>>,
    name: &'a [u8],
    slot: Slot,
) -> Result<bool, NoMemory>
    requires { Distinct (signal_names (signals_of few.now)) }
    ensures new { IfOk result
        (λ new. new ≡ not (has_name (signal_names (filled few.now many.old)) name.now)) }
    ensures added { IfOk result
        (λ new. filled few.now many.new ≡ filled few.now many.old
        ++ (if new then record { name = name.now; slot = slot } ∷ [] else [])) }
{
    match many {
        Some(table) => table.add(name, slot),
        None => {
            let mut table = index_of(alloc, room, few)?;
            let new = table.add(name, slot)?;
            *many = Some(table);
            Ok(new)
        }
    }
}

impl<'a> NewTable<'a> {
    /// No names. So many are expected.
    pub(crate) fn empty(alloc: Global, room: usize) -> Result<NewTable<'a>, NoMemory>
        ensures { IfOk result (λ table. table ≡ []) }
    {
        Ok(NewTable {
            alloc,
            room,
            few: Vec::with_capacity(alloc, FEW)?,
            many: None,
        })
    }

    /// So many more names are expected.
    pub(crate) fn expect(&mut self, more: usize)
        ensures { self.new ≡ self.old }
    {
        self.room = self.room.saturating_add(more);
    }

    /// Whether the name is there. It is looked for near the last one.
    pub(crate) fn has_near(&self, near: &mut usize, name: &[u8]) -> bool
        ensures { result ≡ has_name (signal_names self.now) name.now }
    {
        match &self.many {
            None => is_among(self.few.as_slice(), name),
            Some(table) => table.find_near(near, name).is_some(),
        }
    }

    /// Adds a name at the end where it is new, and answers whether it was.
    pub(crate) fn add(&mut self, name: &'a [u8], slot: Slot) -> Result<bool, NoMemory>
        ensures new { IfOk result (λ new. new ≡ not (has_name (signal_names self.old) name.now)) }
        ensures added { IfOk result
            (λ new. self.new ≡ self.old
            ++ (if new then record { name = name.now; slot = slot } ∷ [] else [])) }
    {
        if self.many.is_none() {
            if is_among(self.few.as_slice(), name) {
                return Ok(false);
            }
            if self.few.len() < FEW {
                return push_few(&mut self.few, name, slot);
            }
        }
        add_to_many(
            self.alloc,
            self.room,
            self.few.as_slice(),
            &mut self.many,
            name,
            slot,
        )
    }

    /// The table of these names.
    pub(crate) fn into_table(self) -> Result<Table<'a>, NoMemory>
        ensures { IfOk result (λ table. table ≡ self.entry) }
    {
        let NewTable {
            alloc,
            room: _,
            few,
            many,
        } = self;
        match many {
            Some(table) => Ok(table),
            None => Table::of_few(alloc, few.as_slice()),
        }
    }
}
