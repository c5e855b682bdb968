// The white space and the mark that are next, where the bytes that are held show them. A mark is taken with no token made.
ghost use Rattle.std.specs.Prelude.{◌≡◌, ℕ, true, Option, Some};
ghost use Rattle.vlog_tokens.specs.Held.{is_near, open_mark, front_mark, held_mark, past_space, past_mark};

use crate::start::is_mark;
use nl_bytes::bytes::LIMIT;
use nl_bytes::{Bytes, Class};

/// Whether all bytes that are held lie within the limit of an input.
#[inline(always)]
pub fn is_near(bytes: &Bytes) -> bool
    ensures { result ≡ is_near bytes.now }
{
    bytes.place().offset + bytes.held().len() as u64 <= LIMIT
}

/// A `(`, where another byte than the `*` of `(*` is behind it.
#[inline(always)]
fn open_mark(behind: &[u8]) -> Option<u8>
    ensures { result ≡ open_mark behind.now }
{
    match behind {
        [b'*', ..] => None,
        [_, ..] => Some(b'('),
        [] => None,
    }
}

/// The punctuation mark at the front of some bytes, where they show that it is one.
#[inline(always)]
fn front_mark(bytes: &[u8]) -> Option<u8>
    ensures { result ≡ front_mark bytes.now }
{
    match bytes {
        [first, rest @ ..] => {
            if *first == b'(' {
                return open_mark(rest);
            }
            if is_mark(*first) {
                return Some(*first);
            }
            None
        }
        [] => None,
    }
}

/// The punctuation mark that is next, where that is held.
#[inline(always)]
#[tactic(auto, unfolding(crate::specs::Held::held_mark))]
pub fn held_mark(bytes: &Bytes) -> Option<u8>
    ensures { result ≡ held_mark bytes.now }
{
    if !is_near(bytes) {
        return None;
    }
    let held = bytes.held();
    let (_, front) = held.split_at(Class::VerilogSpace.front(held));
    front_mark(front)
}

/// Uses the white space that is held.
#[inline(always)]
pub fn pass_space(bytes: &mut Bytes)
    requires near { is_near bytes.old ≡ true }
    ensures { bytes.new ≡ past_space bytes.old }
{
    let count = Class::VerilogSpace.front(bytes.held());
    if count == 0 {
        return;
    }
    if count == 1 {
        bytes.advance();
        return;
    }
    bytes.pass(Class::VerilogSpace, count);
}

/// Uses the mark that is next.
#[inline(always)]
pub fn pass_mark(bytes: &mut Bytes)
    requires { (mark : ℕ) × (held_mark bytes.old ≡ Some mark) }
    ensures { bytes.new ≡ past_mark bytes.old }
{
    pass_space(bytes);
    bytes.advance();
}
