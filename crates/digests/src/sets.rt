// Digests that are noted more than once are told by a bit of each: a table of all would take more time.
ghost use Rattle.std.specs.Prelude.{◌≡◌, ℕ, [], ◌∷◌, ◌++◌, ◌%◌, ◌<◌, length, replicate, IfOk, List};
ghost use Rattle.digests.specs.Sets.{has_bit, has_digest, is_again as is_again_text, place_of, with_bit, with_digest, AreNoted};

use nl_base::NoMemory;
use std::alloc::Global;
use std::marker::Model;

/// How many bits a word has.
const WORD: u64 = 64;

/// How many digests there are for each word, so that about one in eight has the bit of another one.
const DIGESTS: usize = 8;

/// The digests that were noted, and those that were noted again, as sets of bits.
#[derive(Drop)]
pub struct Digests {
    met: Vec<u64>,
    again: Vec<u64>,
}

impl Model for Digests {
    ghost use Rattle.digests.specs.Sets.{DigestSets, HasRoom};

    ghost Value = { DigestSets };

    ghost view = { λ d. record { met = d.met.items; again = d.again.items } };

    ghost invariant = { λ d. HasRoom (record { met = d.met.items; again = d.again.items }) };
}

/// The place of the word that has the bit of a digest, among so many words.
fn place_of(words: usize, digest: u64) -> usize
    requires { 0 < words }
    ensures value { result ≡ place_of words digest }
    ensures within { result < words }
{
    (digest / WORD) as usize & (words - 1)
}

/// Whether the mask has the bit of the digest.
fn has_bit(mask: u64, digest: u64) -> bool
    ensures { result ≡ has_bit mask (digest % 64) }
{
    (mask >> ((digest % WORD) as u32)) & 1 == 1
}

/// The mask with the bit of the digest.
fn with_bit(mask: u64, digest: u64) -> u64
    ensures { result ≡ with_bit mask (digest % 64) }
{
    mask | (1 << ((digest % WORD) as u32))
}

/// Whether the words have the bit of the digest.
fn has_digest(words: &[u64], digest: u64) -> bool
    requires { 0 < length words.now }
    ensures { result ≡ has_digest words.now digest }
{
    has_bit(words[place_of(words.len(), digest)], digest)
}

/// Adds the bit of the digest to the words.
fn add_digest(words: &mut [u64], digest: u64)
    requires { 0 < length words.old }
    ensures { words.new ≡ with_digest words.old digest }
{
    let place = place_of(words.len(), digest);
    words[place] = with_bit(words[place], digest);
}

/// So many words of no bits.
fn no_digests(alloc: Global, words: usize) -> Result<Vec<u64>, NoMemory>
    ensures { IfOk result (λ made. made.items ≡ replicate words 0) }
{
    let made = vec![in alloc; 0; words]?;
    Ok(made)
}

impl Digests {
    /// No digests, with room for so many. It takes two bytes for each.
    pub fn with_room(alloc: Global, count: usize) -> Result<Digests, NoMemory>
        ensures { IfOk result (λ digests. AreNoted digests []) }
    {
        let words = (count / DIGESTS).next_power_of_two();
        let met = no_digests(alloc, words)?;
        let again = no_digests(alloc, words)?;
        Ok(Digests { met, again })
    }

    /// Notes one more digest.
    pub fn note(&mut self, digest: u64)
        ensures { (noted : List ℕ) → AreNoted self.old noted
            → AreNoted self.new (noted ++ digest ∷ []) }
    {
        if has_digest(&self.met, digest) {
            add_digest(&mut self.again, digest);
        } else {
            add_digest(&mut self.met, digest);
        }
    }

    /// Whether the digest was noted at least twice, or has the bit of one that was.
    pub fn is_again(&self, digest: u64) -> bool
        ensures { result ≡ is_again_text self.now digest }
    {
        has_digest(&self.again, digest)
    }
}
