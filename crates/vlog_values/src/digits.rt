// Digits of based literals.
ghost use Rattle.std.specs.Prelude.{◌≡◌, ◌≤◌, ◌<◌, ◌+◌, ◌*◌, ◌^◌, All, IsTrue, nat_lt};
ghost use Rattle.std.specs.List.{list_all};
ghost use Rattle.vlog_values.specs.declared.literal.Base.TheVariants.{Decimal};
ghost use Rattle.vlog_values.specs.Bits.{decimal_value, digit_value, is_digit, is_open, is_within, is_x, is_z};
ghost use Rattle.vlog_values.specs.Spelled.{are_digits, below_128, is_number, is_one_open};

use crate::literal::Base;

/// The value of `0` to `9`, `a` to `f` or `A` to `F`.
#[tactic(auto, unfolding(crate::specs::Bits::digit_value))]
pub fn value_of_digit(c: u8) -> u8
    requires { 48 ≤ c }
    ensures { result ≡ digit_value c }
{
    if c >= 97 {
        c - 87
    } else if c >= 65 {
        c - 55
    } else {
        c - 48
    }
}

/// Whether the digit is x.
pub fn is_x_digit(c: u8) -> bool
    ensures { result ≡ is_x c }
{
    c == b'x' || c == b'X'
}

/// Whether the digit is z.
pub fn is_z_digit(c: u8) -> bool
    ensures { result ≡ is_z c }
{
    c == b'z' || c == b'Z' || c == b'?'
}

/// The value of decimal digits.
pub fn decimal_number(digits: &[u8]) -> u128
    requires digits { All (λ c. 48 ≤ c) digits.now }
    requires fits { decimal_value digits.now < 2 ^ 128 }
    ensures { result ≡ decimal_value digits.now }
{
    let mut n: u128 = 0;
    for c in digits {
        n = 10 * n + value_of_digit(*c) as u128;
    }
    n
}

fn is_within(low: u8, high: u8, c: u8) -> bool
    ensures { result ≡ is_within low high c }
{
    low <= c && c <= high
}

/// Whether the digit is x or z.
fn is_open(c: u8) -> bool
    ensures { result ≡ is_open c }
{
    is_x_digit(c) || is_z_digit(c)
}

/// Whether the byte is a digit of the base. Of a decimal those of a number are meant.
fn is_digit(base: Base, c: u8) -> bool
    ensures { result ≡ is_digit base c }
{
    match base {
        Base::Binary => is_within(b'0', b'1', c) || is_open(c),
        Base::Octal => is_within(b'0', b'7', c) || is_open(c),
        Base::Decimal => is_within(b'0', b'9', c),
        Base::Hex => {
            is_within(b'0', b'9', c)
                || is_within(b'a', b'f', c)
                || is_within(b'A', b'F', c)
                || is_open(c)
        }
    }
}

/// Whether the bytes are digits of the base alone.
fn has_only(base: Base, digits: &[u8]) -> bool
    ensures { result ≡ list_all (is_digit base) digits.now }
{
    for c in digits {
        if !is_digit(base, *c) {
            return false;
        }
    }
    true
}

/// The value of decimal digits to which one more digit comes, where it is below 2^128.
fn with_digit(value: u128, digit: u8) -> Option<u128>
    requires { digit < 10 }
    ensures { result ≡ below_128 (10 * value + digit) }
{
    let digit = u128::from(digit);
    if value > (u128::MAX - digit) / 10 {
        return None;
    }
    Some(10 * value + digit)
}

/// Whether decimal digits have a value below 2^128.
fn is_below_128(digits: &[u8]) -> bool
    requires { All (λ c. IsTrue (is_digit Decimal c)) digits.now }
    ensures { result ≡ nat_lt (decimal_value digits.now) (2 ^ 128) }
{
    let mut value: u128 = 0;
    for c in digits {
        match with_digit(value, value_of_digit(*c)) {
            None => return false,
            Some(next) => value = next,
        }
    }
    true
}

fn is_number(digits: &[u8]) -> bool
    ensures { result ≡ is_number digits.now }
{
    has_only(Base::Decimal, digits) && is_below_128(digits)
}

fn is_one_open(digits: &[u8]) -> bool
    ensures { result ≡ is_one_open digits.now }
{
    match digits {
        [c] => is_open(*c),
        _ => false,
    }
}

/// Whether the bytes are digits as they are spelled in the base.
#[tactic(auto, unfolding(crate::specs::Spelled::are_digits))]
pub fn are_digits(base: Base, digits: &[u8]) -> bool
    ensures { result ≡ are_digits base digits.now }
{
    if digits.is_empty() {
        return false;
    }
    match base {
        Base::Decimal => is_one_open(digits) || is_number(digits),
        _ => has_only(base, digits),
    }
}
