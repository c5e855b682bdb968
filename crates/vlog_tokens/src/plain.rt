// A number or a bracket of attributes that is next, where the bytes that are held show it. It is taken with no token made.
ghost use Rattle.std.specs.Prelude.{◌≡◌, ◌≤◌, length, Some};
ghost use Rattle.vlog_tokens.specs.Plains.{pair_plain, digits_plain, front_plain, plain_length, held_plain, past_plain};

use crate::ahead::{is_near, pass_space};
use crate::number::number_of;
use crate::whole::{is_pair, number_length};
use nl_base::Int;
use nl_bytes::{Bytes, Class};

/// A token that takes no memory and has an end of its own.
#[derive(Clone, Copy)]
pub enum Plain {
    Number(Int),
    /// `(*`
    AttrStart,
    /// `*)`
    AttrStop,
}

/// What `(*` or `*)` is, by its first byte.
#[inline(always)]
fn pair_plain(first: u8) -> Plain
    ensures { result ≡ pair_plain first }
{
    if first == b'(' {
        return Plain::AttrStart;
    }
    Plain::AttrStop
}

/// The number of so many bytes at the front, where it is in range; none of no bytes.
#[inline(always)]
fn digits_plain(front: &[u8], count: usize) -> Option<Plain>
    requires { count ≤ length front.now }
    ensures { result ≡ digits_plain count front.now }
{
    if count == 0 {
        return None;
    }
    let (digits, _) = front.split_at(count);
    match number_of(digits) {
        Some(number) => Some(Plain::Number(number)),
        None => None,
    }
}

/// The number or the bracket at the front of some bytes, where they show it and its end.
#[inline(always)]
fn front_plain(front: &[u8]) -> Option<Plain>
    ensures { result ≡ front_plain front.now }
{
    match front {
        [first, ..] => {
            if first.is_ascii_digit() {
                return digits_plain(front, number_length(front));
            }
            if is_pair(front) {
                return Some(pair_plain(*first));
            }
            None
        }
        [] => None,
    }
}

/// How many bytes the number or the bracket at the front has, where its end is there; 0 where not.
#[inline(always)]
#[tactic(auto, unfolding(crate::specs::Plains::plain_length))]
fn plain_length(front: &[u8]) -> usize
    ensures { result ≡ plain_length front.now }
{
    match front {
        [first, ..] => {
            if first.is_ascii_digit() {
                return number_length(front);
            }
            if is_pair(front) {
                return 2;
            }
            0
        }
        [] => 0,
    }
}

/// The number or the bracket that is next, where it is held with what shows its end.
#[inline(always)]
#[tactic(auto, unfolding(crate::specs::Plains::held_plain))]
pub fn held_plain(bytes: &Bytes) -> Option<Plain>
    ensures { result ≡ held_plain bytes.now }
{
    if !is_near(bytes) {
        return None;
    }
    let held = bytes.held();
    let (_, front) = held.split_at(Class::VerilogSpace.front(held));
    front_plain(front)
}

/// Uses the number or the bracket that is next.
#[inline(always)]
pub fn pass_plain(bytes: &mut Bytes)
    requires { (plain : Plain) × (held_plain bytes.old ≡ Some plain) }
    ensures { bytes.new ≡ past_plain bytes.old }
{
    pass_space(bytes);
    let count = plain_length(bytes.held());
    bytes.pass(Class::Graphic, count);
}
