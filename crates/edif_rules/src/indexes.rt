// The original names of array ports of any size, and the indexes of their bits.
ghost use Rattle.std.specs.Prelude.{◌≡◌, ◌≤◌, ◌<◌, ◌^◌, IfOk, IfSome, length, nat_abs, option_map};
ghost use Rattle.std.specs.Fmt.{signed_decimal};
ghost use Rattle.nl_base.specs.Ranges.{index_at};
ghost use Rattle.edif_values.specs.Names.{array_name, sized_form};

use itoa::Buffer;
use nl_base::{NoMemory, Range, Text, split_range};
use std::alloc::Global;
use std::marker::Model;

/// The length of the base and the range, where the text has the range form for this size as it is written.
fn split_sized(text: &[u8], size: i64) -> Option<(usize, Range)>
    ensures value { result ≡ option_map (λ form. (length form.0, form.1))
        (sized_form text.now size) }
    ensures within { IfSome result (λ found. found.0 ≤ length text.now) }
{
    if size < 0 {
        return None;
    }
    if size > 4294967295 {
        return None;
    }
    split_range(text, size as u32)
}

/// The indexes of a port's leftmost and its rightmost bit, for ports of any size.
#[derive(Clone, Copy)]
pub struct Indexes {
    pub left: i64,
    pub right: i64,
}

impl Model for Indexes {
    ghost use Rattle.nl_base.specs.Ranges.{Bounds};

    ghost Value = { Bounds };

    ghost view = { λ i. record { left = i.left; right = i.right } };

    ghost inverse = { λ b. record { left = b.left; right = b.right } };
}

/// The indexes of a range.
fn indexes_of(range: Range) -> Indexes
    ensures { result ≡ range }
{
    Indexes {
        left: range.left as i64,
        right: range.right as i64,
    }
}

/// The original name of an array of this text and size, and the indexes of its bits.
pub fn array_name(text: &[u8], size: i64) -> (&[u8], Indexes)
    requires { nat_abs size < 2 ^ 63 }
    ensures { (result.0.now, result.1) ≡ array_name text.now size }
{
    if let Some(form) = split_sized(text, size) {
        return (&text[..form.0], indexes_of(form.1));
    }
    let indexes = Indexes {
        left: size - 1,
        right: 0,
    };
    (text, indexes)
}

/// The index of the bit at this position from the left.
fn index_of(indexes: Indexes, bit: u64) -> i128
    ensures { result ≡ index_at indexes bit }
{
    if indexes.left < indexes.right {
        indexes.left as i128 + bit as i128
    } else {
        indexes.left as i128 - bit as i128
    }
}

/// The text of a whole number.
fn number_text(alloc: Global, number: i128) -> Result<Text, NoMemory>
    ensures { IfOk result (λ text. text ≡ signed_decimal number) }
{
    let mut buffer = Buffer::new();
    let text = Text::copy(alloc, buffer.format(number).as_bytes())?;
    Ok(text)
}

/// The text of the index of the bit at this position from the left.
pub fn index_text(alloc: Global, indexes: Indexes, bit: u64) -> Result<Text, NoMemory>
    ensures { IfOk result (λ text. text ≡ signed_decimal (index_at indexes bit)) }
{
    let text = number_text(alloc, index_of(indexes, bit))?;
    Ok(text)
}

/// The text of the index that a member is written with.
pub fn member_text(alloc: Global, index: i64) -> Result<Text, NoMemory>
    ensures { IfOk result (λ text. text ≡ signed_decimal index) }
{
    let text = number_text(alloc, index as i128)?;
    Ok(text)
}
