ghost use Rattle.std.specs.Prelude.{◌≡◌, ◌==◌, [], length, not, IfOk, OnOk, OnErr};
ghost use Rattle.net_bits.specs.Names.{alike, has_name, with_name};
ghost use Rattle.net_bits.specs.NameTables.{digest_of, digest_step, key_byte};

use indexmap::IndexMap;
use nl_base::{NoMemory, Text, fold_eq};
use std::alloc::Global;
use std::marker::Model;

/// A name, and the place of the last name before it that has the same digest.
#[derive(Drop)]
struct Entry {
    name: Text,
    earlier: Option<usize>,
}

/// A set of names, which are told apart byte for byte, or up to case. Contracts see the names in the order in which they were added.
#[derive(Drop)]
pub struct Names {
    fold: bool,
    entries: Vec<Entry>,
    latest: IndexMap<u64, usize>,
}

impl Model for Names {
    ghost use Rattle.std.specs.Prelude.{map};
    ghost use Rattle.net_bits.specs.Names.{NameSet};
    ghost use Rattle.net_bits.specs.NameTables.{HasLinks};

    ghost Value = { NameSet };

    ghost view = { λ n. record { up_to_case = n.fold; names = map (λ entry. entry.name) n.entries.items } };

    ghost invariant = { λ n. HasLinks (record { up_to_case = n.fold; names = map (λ entry. entry.name) n.entries.items }) (map (λ entry. entry.earlier) n.entries.items) n.latest };
}

impl Names {
    /// The set without names; it takes no memory. With `fold` names that are alike up to case are equal.
    pub fn new(alloc: Global, fold: bool) -> Names
        ensures { result ≡ record { up_to_case = fold; names = [] } }
    {
        Names {
            fold,
            entries: Vec::new(alloc),
            latest: IndexMap::new(alloc),
        }
    }

    /// The set without names, with room for so many. With `fold` names that are alike up to case are equal.
    pub fn with_room(alloc: Global, fold: bool, count: usize) -> Result<Names, NoMemory>
        ensures { IfOk result (λ names. names ≡ record { up_to_case = fold; names = [] }) }
    {
        Ok(Names {
            fold,
            entries: Vec::with_capacity(alloc, count)?,
            latest: IndexMap::with_capacity(alloc, count)?,
        })
    }

    /// How many names the set has.
    pub fn len(&self) -> usize
        ensures { result ≡ length self.now.names }
    {
        self.entries.len()
    }

    /// Whether the set has no names.
    pub fn is_empty(&self) -> bool
        ensures { result ≡ (length self.now.names == 0) }
    {
        self.entries.is_empty()
    }

    /// Whether the set has the name.
    pub fn has(&self, name: &[u8]) -> bool
        ensures { result ≡ has_name self.now name.now }
    {
        self.has_of(digest(name, self.fold), name)
    }

    /// Whether the set has the name, which has this digest.
    fn has_of(&self, digest: u64, name: &[u8]) -> bool
        requires { digest ≡ digest_of self.now.up_to_case name.now }
        ensures { result ≡ has_name self.now name.now }
    {
        let mut place = self.latest.get(&digest).copied();
        while let Some(at) = place {
            let entry = &self.entries[at];
            if are_alike(name, entry.name.bytes(), self.fold) {
                return true;
            }
            place = entry.earlier;
        }
        false
    }

    /// Adds the name, and answers whether it was new. Where memory runs out, the set is as before.
    pub fn add(&mut self, alloc: Global, name: &[u8]) -> Result<bool, NoMemory>
        ensures new { IfOk result (λ new. new ≡ not (has_name self.old name.now)) }
        ensures added { OnOk result (self.new ≡ with_name self.old name.now) }
        ensures kept { OnErr result (self.new ≡ self.old) }
    {
        let digest = digest(name, self.fold);
        if self.has_of(digest, name) {
            return Ok(false);
        }
        let earlier = self.latest.get(&digest).copied();
        let place = self.entries.len();
        let name = Text::copy(alloc, name)?;
        self.entries.push(Entry { name, earlier })?;
        match self.latest.insert(digest, place) {
            Ok(_) => Ok(true),
            Err(_) => {
                self.entries.pop();
                Err(NoMemory)
            }
        }
    }
}

// Whether two names are alike: byte for byte, or up to case.
fn are_alike(a: &[u8], b: &[u8], fold: bool) -> bool
    ensures { result ≡ alike fold a.now b.now }
{
    if fold { fold_eq(a, b) } else { a == b }
}

// A byte as it counts in a digest.
fn counted(byte: u8, fold: bool) -> u8
    ensures { result ≡ key_byte fold byte }
{
    if fold {
        byte.to_ascii_lowercase()
    } else {
        byte
    }
}

/// A number that is the same for names that are alike, byte for byte or with `fold` up to case, and seldom for others: the hash FNV-1a.
pub fn digest(name: &[u8], fold: bool) -> u64
    ensures { result ≡ digest_of fold name.now }
{
    let mut hash: u64 = 0xcbf2_9ce4_8422_2325;
    for byte in name {
        hash = (hash ^ counted(*byte, fold) as u64).wrapping_mul(0x100_0000_01b3);
    }
    hash
}
