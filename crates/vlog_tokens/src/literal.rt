// The digits of a based literal that are next, where the bytes that are held show them and their end. They are taken with no token
// made. A literal with a sign letter, or with white space or `_` in it, is not looked for.
ghost use Rattle.std.specs.Prelude.{◌≡◌, ◌<◌, length, Some};
ghost use Rattle.std.specs.List.{prefix_len};
ghost use Rattle.vlog_tokens.specs.Phases.{is_digit};
ghost use Rattle.vlog_tokens.specs.HeldLiterals.{front_base, digits_length, held_base, held_digits, past_digits};

use crate::ahead::is_near;
use crate::item::has_value;
use crate::phase::{base_of, is_digit};
use nl_bytes::{Bytes, Class};
use vlog_values::Base;

/// The base whose letter stands behind a `'` at the front of some bytes.
#[inline(always)]
fn front_base(held: &[u8]) -> Option<Base>
    ensures { result ≡ front_base held.now }
{
    match held {
        [quote, letter, ..] => {
            if *quote == b'\'' {
                return base_of(*letter);
            }
            None
        }
        _ => None,
    }
}

/// How many digits of a base are at the front.
#[inline(always)]
fn digit_run(base: Base, bytes: &[u8]) -> usize
    ensures { result ≡ prefix_len (is_digit base) bytes.now }
{
    let mut n = 0;
    while n < bytes.len() && is_digit(base, bytes[n]) {
        n += 1;
    }
    n
}

/// How many digits of a base are at the front, where their end is there; 0 where not.
#[inline(always)]
#[tactic(auto, unfolding(crate::specs::HeldLiterals::digits_length))]
fn digits_length(base: Base, bytes: &[u8]) -> usize
    ensures { result ≡ digits_length base bytes.now }
{
    let count = digit_run(base, bytes);
    if count >= bytes.len() {
        return 0;
    }
    if Class::BasedByte.contains(bytes[count]) {
        return 0;
    }
    count
}

/// The base of the literal that is next, where its `'` and its letter are held and no white space stands before them.
#[inline(always)]
#[tactic(auto, unfolding(crate::specs::HeldLiterals::held_base))]
pub fn held_base(bytes: &Bytes) -> Option<Base>
    ensures { result ≡ held_base bytes.now }
{
    if !is_near(bytes) {
        return None;
    }
    front_base(bytes.held())
}

/// The digits behind that letter, where they have a value and are held with the byte behind them; no bytes where not.
#[inline(always)]
#[tactic(auto, unfolding(crate::specs::HeldLiterals::held_digits))]
pub fn held_digits(bytes: &Bytes, base: Base) -> &[u8]
    ensures { result.now ≡ held_digits base bytes.now }
{
    let held = bytes.held();
    let (_, behind) = held.split_at(held.len().min(2));
    let (digits, _) = behind.split_at(digits_length(base, behind));
    if has_value(base, digits) {
        return digits;
    }
    &[]
}

/// Uses the `'`, the letter and so many digits.
#[inline(always)]
pub fn pass_digits(bytes: &mut Bytes, base: Base, count: usize)
    requires base { held_base bytes.old ≡ Some base }
    requires some { 0 < count }
    requires digits { count ≡ length (held_digits base bytes.old) }
    ensures { bytes.new ≡ past_digits count bytes.old }
{
    // The buffer holds at most 4,096 bytes, as this call says.
    let _here = bytes.place();
    bytes.pass(Class::LineByte, count + 2);
}
