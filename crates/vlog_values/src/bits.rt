// The bits of a literal.
ghost use Rattle.std.specs.Prelude.{◌≡◌, ◌/◌, ◌%◌, ◌^◌, ◌<◌, ◌≤◌, ◌++◌, All, flat_map, replicate, OnOk, IfOk};
ghost use Rattle.vlog_values.specs.declared.literal.Base.TheVariants.{Decimal};
ghost use Rattle.vlog_values.specs.Bits.{AreDigits, binary_digits, bit_of, decimal_bits, digit_bits, fill_of, literal_bits, own_bits};

use crate::digits::{decimal_number, is_x_digit, is_z_digit, value_of_digit};
use crate::literal::{Base, Based, Bit, Literal};
use nl_base::NoMemory;
use std::alloc::Global;
use std::marker::Model;

/// Bits from the left, which contracts see as the list of them.
#[derive(Drop)]
pub struct Bits {
    items: Vec<Bit>,
}

impl Model for Bits {
    ghost use Rattle.std.specs.Prelude.{List};
    ghost use Rattle.vlog_values.specs.declared.literal.Bit.{Bit};

    ghost Value = { List Bit };

    ghost view = { λ b. b.items.items };
}

impl Bits {
    /// The bits.
    pub fn items(&self) -> &[Bit]
        ensures { result.now ≡ self.now }
    {
        self.items.as_slice()
    }
}

/// The bits of a literal from the left: `filled` times the bit `fill`, and then `own`, which its digits give. The size of a literal may be
/// far above the number of its digits, so what fills the left is counted and not made.
#[derive(Drop)]
pub struct FilledBits {
    pub fill: Bit,
    pub filled: u32,
    pub own: Vec<Bit>,
}

fn push_copies(bits: &mut Vec<Bit>, bit: Bit, count: usize) -> Result<(), NoMemory>
    ensures added { OnOk result (bits.new.items ≡ bits.old.items ++ replicate count bit) }
{
    for _i in 0..count {
        bits.push(bit)?;
    }
    Ok(())
}

fn bit_at(n: u128, place: u32) -> Bit
    requires { place < 128 }
    ensures { result ≡ bit_of (n / 2 ^ place % 2) }
{
    if (n >> place) % 2 == 0 {
        Bit::Zero
    } else {
        Bit::One
    }
}

/// Adds the lowest binary digits of a number.
fn push_binary(bits: &mut Vec<Bit>, width: u32, n: u128) -> Result<(), NoMemory>
    requires { width ≤ 128 }
    ensures added { OnOk result (bits.new.items ≡ bits.old.items ++ binary_digits width n) }
{
    for i in (0..width).rev() {
        bits.push(bit_at(n, i))?;
    }
    Ok(())
}

#[tactic(auto, unfolding(crate::specs::Bits::digit_bits))]
fn push_digit(bits: &mut Vec<Bit>, width: u32, c: u8) -> Result<(), NoMemory>
    requires narrow { width ≤ 128 }
    requires digit { 48 ≤ c }
    ensures added { OnOk result (bits.new.items ≡ bits.old.items ++ digit_bits width c) }
{
    if is_x_digit(c) {
        push_copies(bits, Bit::X, width as usize)
    } else if is_z_digit(c) {
        push_copies(bits, Bit::Z, width as usize)
    } else {
        push_binary(bits, width, value_of_digit(c) as u128)
    }
}

fn push_digits(bits: &mut Vec<Bit>, width: u32, digits: &[u8]) -> Result<(), NoMemory>
    requires narrow { width ≤ 128 }
    requires digits { All (λ c. 48 ≤ c) digits.now }
    ensures added { OnOk result (bits.new.items
        ≡ bits.old.items ++ flat_map (digit_bits width) digits.now) }
{
    for c in digits {
        push_digit(bits, width, *c)?;
    }
    Ok(())
}

#[tactic(auto, unfolding(crate::specs::Bits::decimal_bits))]
fn push_decimal(bits: &mut Vec<Bit>, digits: &[u8]) -> Result<(), NoMemory>
    requires { AreDigits Decimal digits.now }
    ensures added { OnOk result (bits.new.items ≡ bits.old.items ++ decimal_bits digits.now) }
{
    match digits {
        [] => Ok(()),
        [first, ..] => {
            if is_x_digit(*first) {
                push_copies(bits, Bit::X, 1)
            } else if is_z_digit(*first) {
                push_copies(bits, Bit::Z, 1)
            } else {
                push_binary(bits, 128, decimal_number(digits))
            }
        }
    }
}

/// Adds the bits that the digits give by themselves.
#[tactic(auto, unfolding(crate::specs::Bits::own_bits))]
fn push_own(bits: &mut Vec<Bit>, based: &Based) -> Result<(), NoMemory>
    requires { AreDigits based.now.base based.now.digits }
    ensures added { OnOk result (bits.new.items
        ≡ bits.old.items ++ own_bits based.now.base based.now.digits) }
{
    let digits = based.digits.bytes();
    match based.base {
        Base::Binary => push_digits(bits, 1, digits),
        Base::Octal => push_digits(bits, 3, digits),
        Base::Decimal => push_decimal(bits, digits),
        Base::Hex => push_digits(bits, 4, digits),
    }
}

/// What fills the left where there are too few bits.
#[tactic(auto, unfolding(crate::specs::Bits::fill_of))]
fn fill(bits: &[Bit]) -> Bit
    ensures { result ≡ fill_of bits.now }
{
    match bits {
        [] => Bit::Zero,
        [first, ..] => match first {
            Bit::Zero => Bit::Zero,
            Bit::One => Bit::Zero,
            Bit::X => Bit::X,
            Bit::Z => Bit::Z,
        },
    }
}

/// The bits of a literal, as many as its size says, of which those that fill the left are counted and not made.
#[tactic(auto, unfolding(crate::specs::Bits::literal_bits, crate::specs::Bits::fitted))]
pub fn filled_bits_of(alloc: Global, literal: &Literal) -> Result<FilledBits, NoMemory>
    requires { AreDigits literal.now.based.base literal.now.based.digits }
    ensures value { IfOk result
        (λ bits. replicate bits.filled bits.fill ++ bits.own.items ≡ literal_bits literal.now) }
{
    let mut digits = Vec::new(alloc);
    push_own(&mut digits, &literal.based)?;
    let size = literal.size as usize;
    let filled = size.saturating_sub(digits.len()) as u32;
    let dropped = digits.len().saturating_sub(size);
    let fill = fill(&digits);
    let mut own = Vec::new(alloc);
    own.extend_from_slice(&digits[dropped..])?;
    Ok(FilledBits { fill, filled, own })
}

/// The bits of a literal, from the left, as many as its size says.
pub fn bits_of(alloc: Global, literal: &Literal) -> Result<Bits, NoMemory>
    requires { AreDigits literal.now.based.base literal.now.based.digits }
    ensures value { IfOk result (λ bits. bits ≡ literal_bits literal.now) }
{
    let bits = filled_bits_of(alloc, literal)?;
    let mut items = Vec::new(alloc);
    push_copies(&mut items, bits.fill, bits.filled as usize)?;
    items.extend_from_slice(&bits.own)?;
    Ok(Bits { items })
}
