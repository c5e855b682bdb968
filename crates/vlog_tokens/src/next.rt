// The name or the keyword that is next, where the bytes that are held show it. It is taken with no token made.
ghost use Rattle.std.specs.Prelude.{◌≡◌, ◌<◌, ℕ, length};
ghost use Rattle.vlog_tokens.specs.Held.{front_length, held_word, past_word};

use crate::ahead::{is_near, pass_space};
use crate::start::begins_name;
use crate::whole::word_length;
use nl_bytes::{Bytes, Class};

/// How many bytes a simple name or a keyword has at the front, where its end is there; 0 where not.
#[inline(always)]
#[tactic(auto, unfolding(crate::specs::Held::front_length))]
fn front_length(held: &[u8]) -> usize
    ensures { result ≡ front_length held.now }
{
    match held {
        [first, ..] => {
            if begins_name(*first) {
                return word_length(held);
            }
            0
        }
        [] => 0,
    }
}

/// The simple name or the keyword that is next, where it is held with the byte behind it; no bytes where not.
#[inline(always)]
#[tactic(auto, unfolding(crate::specs::Held::held_word))]
pub fn held_word(bytes: &Bytes) -> &[u8]
    ensures { result.now ≡ held_word bytes.now }
{
    if !is_near(bytes) {
        return &[];
    }
    let held = bytes.held();
    let (_, front) = held.split_at(Class::VerilogSpace.front(held));
    let (word, _) = front.split_at(front_length(front));
    word
}

/// Uses the word that is next, which has so many bytes.
#[inline(always)]
pub fn pass_word(bytes: &mut Bytes, count: usize)
    requires some { 0 < count }
    requires word { count ≡ length (held_word bytes.old) }
    ensures { bytes.new ≡ past_word bytes.old }
{
    pass_space(bytes);
    bytes.pass(Class::NameByte, count);
}
