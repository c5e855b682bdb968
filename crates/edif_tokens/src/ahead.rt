// The parenthesis or the word that is next, where the bytes that are held show it. It is taken with no token made.
ghost use Rattle.std.specs.Prelude.{◌≡◌, ◌<◌, ℕ, true, length, Some};
ghost use Rattle.edif_tokens.specs.Held.{is_near, space_length, front_mark, held_mark, past_space, past_mark, word_by, word_length, held_word, past_word};

use crate::scan::may_follow;
use nl_bytes::bytes::LIMIT;
use nl_bytes::{Bytes, Class};

/// Whether all bytes that are held lie within the limit of an input.
#[inline(always)]
pub fn is_near(bytes: &Bytes) -> bool
    ensures { result ≡ is_near bytes.now }
{
    bytes.place().offset + bytes.held().len() as u64 <= LIMIT
}

/// The parenthesis at the front of some bytes.
#[inline(always)]
fn front_mark(bytes: &[u8]) -> Option<u8>
    ensures { result ≡ front_mark bytes.now }
{
    match bytes {
        [first, ..] => {
            if *first == b'(' || *first == b')' {
                return Some(*first);
            }
            None
        }
        [] => None,
    }
}

/// The parenthesis that is next, where that is held.
#[inline(always)]
#[tactic(auto, unfolding(crate::specs::Held::held_mark))]
pub fn held_mark(bytes: &Bytes) -> Option<u8>
    ensures { result ≡ held_mark bytes.now }
{
    if !is_near(bytes) {
        return None;
    }
    let held = bytes.held();
    let (_, front) = held.split_at(Class::Space.front(held));
    front_mark(front)
}

/// How many bytes of white space are next.
#[inline(always)]
pub fn space_ahead(bytes: &Bytes) -> usize
    ensures { result ≡ space_length bytes.now.held }
{
    let held = bytes.held();
    Class::Space.front(held)
}

/// Uses the white space that is next, which has so many bytes.
#[inline(always)]
fn pass_space(bytes: &mut Bytes, count: usize)
    requires near { is_near bytes.old ≡ true }
    requires space { count ≡ space_length bytes.old.held }
    ensures { bytes.new ≡ past_space bytes.old }
{
    if count == 0 {
        return;
    }
    bytes.pass(Class::Space, count);
}

/// Uses the parenthesis that is next, behind so many bytes of white space.
#[inline(always)]
pub fn pass_mark_behind(bytes: &mut Bytes, space: usize)
    requires mark { (mark : ℕ) × (held_mark bytes.old ≡ Some mark) }
    requires space { space ≡ space_length bytes.old.held }
    ensures { bytes.new ≡ past_mark bytes.old }
{
    pass_space(bytes, space);
    bytes.advance();
}

/// Uses the parenthesis that is next.
#[inline(always)]
pub fn pass_mark(bytes: &mut Bytes)
    requires { (mark : ℕ) × (held_mark bytes.old ≡ Some mark) }
    ensures { bytes.new ≡ past_mark bytes.old }
{
    let space = space_ahead(bytes);
    pass_mark_behind(bytes, space)
}

/// So many bytes of a word, where they are not too many and the byte behind them is there and may follow a word; 0 where not.
#[inline(always)]
fn word_by(held: &[u8], count: usize) -> usize
    ensures { result ≡ word_by held.now count }
{
    if count > 1024 || count >= held.len() {
        return 0;
    }
    if !may_follow(held[count]) {
        return 0;
    }
    count
}

/// How many bytes a word that begins with a letter has at the front, where its end is there; 0 where not.
#[inline(always)]
#[tactic(auto, unfolding(crate::specs::Held::word_length))]
pub fn word_length(held: &[u8]) -> usize
    ensures { result ≡ word_length held.now }
{
    match held {
        [first, ..] => {
            if first.is_ascii_alphabetic() {
                return word_by(held, Class::WordByte.front(held));
            }
            0
        }
        [] => 0,
    }
}

/// The word that is next, where it is held with the byte behind it; no bytes where not.
#[inline(always)]
#[tactic(auto, unfolding(crate::specs::Held::held_word))]
pub fn held_word(bytes: &Bytes) -> &[u8]
    ensures { result.now ≡ held_word bytes.now }
{
    if !is_near(bytes) {
        return &[];
    }
    let held = bytes.held();
    let (_, front) = held.split_at(Class::Space.front(held));
    let (word, _) = front.split_at(word_length(front));
    word
}

/// Uses the word that is next, which has so many bytes, behind so many bytes of white space.
#[inline(always)]
pub fn pass_word_behind(bytes: &mut Bytes, space: usize, count: usize)
    requires some { 0 < count }
    requires word { count ≡ length (held_word bytes.old) }
    requires space { space ≡ space_length bytes.old.held }
    ensures { bytes.new ≡ past_word bytes.old }
{
    pass_space(bytes, space);
    bytes.pass(Class::WordByte, count);
}

/// Uses the word that is next, which has so many bytes.
#[inline(always)]
pub fn pass_word(bytes: &mut Bytes, count: usize)
    requires some { 0 < count }
    requires word { count ≡ length (held_word bytes.old) }
    ensures { bytes.new ≡ past_word bytes.old }
{
    let space = space_ahead(bytes);
    pass_word_behind(bytes, space, count)
}
