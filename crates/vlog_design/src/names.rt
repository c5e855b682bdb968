// Names in order, each once.
use indexmap::IndexSet;
use nl_base::NoMemory;
use std::alloc::Global;
use std::marker::Model;

/// Up to how many names stand in the list.
const FEW: usize = 4;

/// Names that differ, in the order in which they were added, which contracts see as the list of them. The first are in a list, which
/// takes less memory than an index and is searched as fast.
#[derive(Drop)]
pub struct NameSet<'a> {
    alloc: Global,
    few: Vec<&'a [u8]>,
    // Those behind them.
    rest: Option<Box<IndexSet<&'a [u8]>>>,
}

impl<'a> Model for NameSet<'a> {
    ghost use Rattle.std.specs.Prelude.{List, ℕ, ◌++◌};
    ghost use Rattle.vlog_design.specs.Tables.{names_of, keys_behind};

    ghost Value = { List (List ℕ) };

    ghost view = { λ n. names_of (n.few.items ++ keys_behind n.rest) };
}

ghost use Rattle.std.specs.Prelude.{◌≡◌, [], ◌++◌, ◌∷◌, true, not, bytes_eq, position, length, if◌then◌else◌, IfOk, OnErr};
ghost use Rattle.std.specs.List.{position_or_len};
ghost use Rattle.vlog_design.specs.Names.{has_name};
ghost use Rattle.vlog_design.specs.Tables.{names_of, keys_behind};

/// The number of the name among these, or how many there are where it is none of them.
fn place_among(names: &[&[u8]], name: &[u8]) -> usize
    ensures { result ≡ position_or_len (bytes_eq name.now) (names_of names.now) }
{
    let mut place = 0;
    while place < names.len() {
        if name == names[place] {
            return place;
        }
        place += 1;
    }
    place
}

/// Whether the name is one of these.
fn is_among(names: &[&[u8]], name: &[u8]) -> bool
    ensures { result ≡ has_name (names_of names.now) name.now }
{
    place_among(names, name) < names.len()
}

/// Adds the name at the end, with room for two and four of the first, since most sets are small.
fn push_few<'a>(few: &mut Vec<&'a [u8]>, name: &'a [u8]) -> Result<bool, NoMemory>
    ensures new { IfOk result (λ new. new ≡ true) }
    ensures added { IfOk result
        (λ new. names_of few.new.items ≡ names_of few.old.items ++ name.now ∷ []) }
    ensures kept { OnErr result (names_of few.new.items ≡ names_of few.old.items) }
{
    if few.len() == few.capacity() {
        few.reserve_exact(2)?;
    }
    match few.push(name) {
        Ok(()) => Ok(true),
        Err(_) => Err(NoMemory),
    }
}

/// Adds the name where it is new, and answers whether it was.
fn insert_name<'a>(set: &mut IndexSet<&'a [u8]>, name: &'a [u8]) -> Result<bool, NoMemory>
    ensures new { IfOk result (λ new. new ≡ not (has_name (names_of set.old.keys) name.now)) }
    ensures added { IfOk result
        (λ new. names_of set.new.keys
        ≡ names_of set.old.keys ++ (if new then name.now ∷ [] else [])) }
    ensures kept { OnErr result (names_of set.new.keys ≡ names_of set.old.keys) }
{
    if let Ok(new) = set.insert(name) {
        return Ok(new);
    }
    Err(NoMemory)
}

/// Adds the name to those behind the first where it is none of them, and answers whether it was none.
fn insert_behind<'a>(
    alloc: Global,
    rest: &mut Option<Box<IndexSet<&'a [u8]>>>,
    name: &'a [u8],
) -> Result<bool, NoMemory>
    ensures new { IfOk result
        (λ new. new ≡ not (has_name (names_of (keys_behind rest.old)) name.now)) }
    ensures added { IfOk result
        (λ new. names_of (keys_behind rest.new)
        ≡ names_of (keys_behind rest.old) ++ (if new then name.now ∷ [] else [])) }
    ensures kept { OnErr result
        (names_of (keys_behind rest.new) ≡ names_of (keys_behind rest.old)) }
{
    match rest {
        Some(set) => insert_name(set, name),
        None => {
            let mut set = IndexSet::new(alloc);
            let new = insert_name(&mut set, name)?;
            *rest = Some(Box::new(alloc, set)?);
            Ok(new)
        }
    }
}

impl<'a> NameSet<'a> {
    /// No names; it takes no memory.
    pub fn empty(alloc: Global) -> NameSet<'a>
        ensures { result ≡ [] }
    {
        NameSet {
            alloc,
            few: Vec::new(alloc),
            rest: None,
        }
    }

    /// Whether the name is there.
    pub fn has(&self, name: &[u8]) -> bool
        ensures { result ≡ has_name self.now name.now }
    {
        self.place(name).is_some()
    }

    /// The number of the name, where it is there.
    pub fn place(&self, name: &[u8]) -> Option<usize>
        ensures { result ≡ position (bytes_eq name.now) self.now }
    {
        let few = self.few.as_slice();
        let place = place_among(few, name);
        if place < few.len() {
            return Some(place);
        }
        match &self.rest {
            None => None,
            Some(rest) => {
                // This bounds the sum.
                let _bound = rest.len();
                match rest.get_index_of(name) {
                    None => None,
                    Some(behind) => Some(few.len() + behind),
                }
            }
        }
    }

    /// How many names there are.
    pub fn len(&self) -> usize
        ensures { result ≡ length self.now }
    {
        match &self.rest {
            None => self.few.len(),
            Some(rest) => self.few.len() + rest.len(),
        }
    }

    /// Adds the name at the end where it is new, and answers whether it was.
    pub fn add(&mut self, name: &'a [u8]) -> Result<bool, NoMemory>
        ensures new { IfOk result (λ new. new ≡ not (has_name self.old name.now)) }
        ensures added { IfOk result
            (λ new. self.new ≡ self.old ++ (if new then name.now ∷ [] else [])) }
        ensures kept { OnErr result (self.new ≡ self.old) }
    {
        if is_among(self.few.as_slice(), name) {
            return Ok(false);
        }
        if self.rest.is_none() && self.few.len() < FEW {
            return push_few(&mut self.few, name);
        }
        insert_behind(self.alloc, &mut self.rest, name)
    }
}
