// The bits that the nets of a cell have.
ghost use Rattle.std.specs.Prelude.{◌≡◌, ◌%◌, ◌||◌, List, [], true, length, replicate, IfOk, OnOk, OnErr};
ghost use Rattle.std.specs.List.{list_any, IsDistinct};
ghost use Rattle.indexmap.specs.IndexMap.{keys};
ghost use Rattle.indexmap.specs.IndexSet.{insert_key};
ghost use Rattle.net_hier.specs.declared.nodes.Node.{Node};
ghost use Rattle.edif_design.specs.CellRules.{same_node};
ghost use Rattle.edif_rules.specs.Spots.{has_bit, has_first, is_first, mask_of, node_at, own_word, same_word, with_bit, with_first, with_own};

use indexmap::{IndexMap, IndexSet};
use nl_base::NoMemory;
use std::alloc::Global;
use std::hash::Hash;
use std::marker::Model;

/// A bit of a port: of the cell, or of the instance of this number. The bit is a position from the left; a port has as many as its
/// size says, also where no rule allows so many.
#[derive(Clone, Copy, PartialEq, Eq, Hash)]
pub struct BitSpot {
    pub instance: Option<u32>,
    pub port: u32,
    pub bit: u64,
}

/// How many bits of a port have a mask together.
const WORD: u64 = 64;

/// How many numbers a half of a word's number can be.
const HALF: u64 = 1 << 32;

/// Bits of a port of the cell that stand together, as the lower and the upper half of their number: a key with the whole number would
/// take 16 bytes in place of 12.
#[derive(Clone, Copy, PartialEq, Eq, Hash)]
pub struct OwnWord {
    port: u32,
    low: u32,
    high: u32,
}

/// A bit of a port of an instance.
#[derive(Clone, Copy, PartialEq, Eq, Hash)]
pub struct PinBit {
    instance: u32,
    port: u32,
    bit: u64,
}

/// A set of bits, which contracts see as a list of nodes. The bits of the cell's own ports and those of instances' ports are kept apart.
/// Of own bits, 64 that stand together are one mask: a bit that is a key of its own takes some 28 bytes, and a word takes about as many
/// and its mask. Of each instance, the first bits of 64 ports are one mask at the instance's number: ports of instances mostly have one
/// bit. The others are keys.
#[derive(Drop)]
pub struct TakenBits {
    own: IndexMap<OwnWord, u64>,
    firsts: Vec<u64>,
    others: IndexSet<PinBit>,
}

impl Model for TakenBits {
    ghost use Rattle.std.specs.Prelude.{List, ◌++◌};
    ghost use Rattle.net_hier.specs.declared.nodes.Node.{Node};
    ghost use Rattle.edif_rules.specs.Spots.{own_nodes, pin_nodes, AreTaken};

    ghost Value = { List Node };

    ghost view = { λ b. own_nodes b.own.entries ++ pin_nodes b.firsts.items b.others.keys };

    ghost invariant = { λ b. AreTaken b.own.entries b.firsts.items b.others.keys };
}

/// The word of a bit of a port of the cell.
fn own_word(port: u32, bit: u64) -> OwnWord
    ensures { result ≡ own_word port bit }
{
    let word = bit / WORD;
    OwnWord {
        port,
        low: (word % HALF) as u32,
        high: (word / HALF) as u32,
    }
}

/// Whether the bit is in the mask of its word.
fn has_bit(mask: u64, bit: u64) -> bool
    ensures { result ≡ has_bit mask (bit % 64) }
{
    (mask >> ((bit % WORD) as u32)) & 1 == 1
}

/// The mask with the bit.
fn with_bit(mask: u64, bit: u64) -> u64
    ensures { result ≡ with_bit mask (bit % 64) }
{
    mask | (1 << ((bit % WORD) as u32))
}

/// The mask of the word, which is 0 where none of its bits is there.
fn mask_of(words: &IndexMap<OwnWord, u64>, word: &OwnWord) -> u64
    ensures { result ≡ mask_of words.now.entries word.now }
{
    match words.get(word).copied() {
        Some(mask) => mask,
        None => 0,
    }
}

/// Adds the bit of a port of the cell.
fn add_own(words: &mut IndexMap<OwnWord, u64>, port: u32, bit: u64) -> Result<(), NoMemory>
    ensures added { OnOk result (words.new.entries ≡ with_own words.old.entries port bit) }
    ensures kept { OnErr result (words.new.entries ≡ words.old.entries) }
    ensures apart { IsDistinct same_word (keys words.new) }
{
    let word = own_word(port, bit);
    let mask = with_bit(mask_of(words, &word), bit);
    if let Ok(_) = words.insert(word, mask) {
        return Ok(());
    }
    Err(NoMemory)
}

/// Adds the key.
fn add_key<T: Eq + Hash + Drop>(set: &mut IndexSet<T>, key: T) -> Result<(), NoMemory>
    ensures added { OnOk result (set.new.keys ≡ insert_key T.eq set.old.keys key) }
    ensures kept { OnErr result (set.new.keys ≡ set.old.keys) }
{
    if let Ok(_) = set.insert(key) {
        return Ok(());
    }
    Err(NoMemory)
}

/// Whether the bit is the first one of a port that has a place in the mask of its instance, of so many instances.
fn is_first(key: &PinBit, instances: usize) -> bool
    ensures { result ≡ is_first key.now instances }
{
    key.bit == 0 && (key.port as u64) < WORD && (key.instance as usize) < instances
}

/// Whether the masks have the first bit of the port.
fn has_first(masks: &[u64], key: &PinBit) -> bool
    requires { is_first key.now (length masks.now) ≡ true }
    ensures { result ≡ has_first masks.now key.now }
{
    has_bit(masks[key.instance as usize], key.port as u64)
}

/// Adds the first bit of the port to the masks.
fn add_first(masks: &mut [u64], key: &PinBit)
    requires { is_first key.now (length masks.now) ≡ true }
    ensures { masks.new ≡ with_first masks.old key.now }
{
    let number = key.instance as usize;
    masks[number] = with_bit(masks[number], key.port as u64);
}

/// A mask of no bits for each of so many instances.
fn no_firsts(alloc: Global, instances: usize) -> Result<Vec<u64>, NoMemory>
    ensures { IfOk result (λ made. made.items ≡ replicate instances 0) }
{
    let masks = vec![in alloc; 0; instances]?;
    Ok(masks)
}

impl TakenBits {
    /// No bits of a cell of so many instances.
    pub fn empty(alloc: Global, instances: usize) -> Result<TakenBits, NoMemory>
        ensures { IfOk result (λ made. made ≡ []) }
    {
        let firsts = no_firsts(alloc, instances)?;
        Ok(TakenBits {
            own: IndexMap::new(alloc),
            firsts,
            others: IndexSet::new(alloc),
        })
    }

    /// Whether the bit is there.
    pub fn has(&self, spot: BitSpot) -> bool
        ensures { result ≡ list_any (same_node (node_at spot)) self.now }
    {
        match spot.instance {
            None => {
                let word = own_word(spot.port, spot.bit);
                has_bit(mask_of(&self.own, &word), spot.bit)
            }
            Some(instance) => {
                let key = PinBit {
                    instance,
                    port: spot.port,
                    bit: spot.bit,
                };
                if is_first(&key, self.firsts.len()) {
                    return has_first(&self.firsts, &key);
                }
                self.others.contains(&key)
            }
        }
    }

    /// Adds the bit.
    pub fn add(&mut self, spot: BitSpot) -> Result<(), NoMemory>
        ensures added { OnOk result ((other : Node)
            → list_any (same_node other) self.new
            ≡ (same_node other (node_at spot) || list_any (same_node other) self.old)) }
        ensures kept { OnErr result (self.new ≡ self.old) }
    {
        match spot.instance {
            None => add_own(&mut self.own, spot.port, spot.bit),
            Some(instance) => {
                let key = PinBit {
                    instance,
                    port: spot.port,
                    bit: spot.bit,
                };
                if is_first(&key, self.firsts.len()) {
                    add_first(&mut self.firsts, &key);
                    return Ok(());
                }
                add_key(&mut self.others, key)
            }
        }
    }
}
