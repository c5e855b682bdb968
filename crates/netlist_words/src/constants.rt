// The constants that options choose.
ghost use Rattle.std.specs.Prelude.{◌≡◌, ◌+◌, ◌<◌, MatchOption, IfOk, IfSome, IsTrue, None, Some, drop, length, slice_get, take};
ghost use Rattle.nl_base.specs.RangeForm.{IsFreeOf, cut_at_last};
ghost use Rattle.netlist_words.specs.Lent.{lent_names, lent_option, name_of};
ghost use Rattle.netlist_words.specs.Parsing.{are_constants, cell_port, constants_of, has_name_length, have_name_lengths, if_constants, word_or};

use net_hier::{ConstName, Constants};
use nl_base::{NoMemory, Text};
use std::alloc::Global;

/// The names of a constant's cell and port, as they stand in a word.
#[derive(Clone, Copy)]
pub struct CellPort<'a> {
    pub cell: &'a [u8],
    pub port: &'a [u8],
}

/// The names of both constants, as they stand in words.
#[derive(Clone, Copy)]
pub struct Names<'a> {
    pub zero: CellPort<'a>,
    pub one: CellPort<'a>,
}

/// Where the last `.` of a word stands.
fn last_dot(word: &[u8]) -> Option<usize>
    ensures { MatchOption result (IsFreeOf 46 word.now) (λ at. (at < length word.now)
        × (slice_get word.now at ≡ Some 46) × IsFreeOf 46 (drop (at + 1) word.now)) }
{
    let mut end = word.len();
    while end > 0 {
        if word[end - 1] == b'.' {
            return Some(end - 1);
        }
        end -= 1;
    }
    None
}

/// The names before the last `.` of a word and behind it.
fn cell_port(word: &[u8]) -> Option<CellPort<'_>>
    ensures { MatchOption result (cell_port word.now ≡ None)
        (λ name. cell_port word.now ≡ Some (name_of name)) }
{
    let at = last_dot(word)?;
    Some(CellPort {
        cell: &word[..at],
        port: &word[at + 1..],
    })
}

/// The word of an option, or this one where it is left out.
fn word_or<'a>(given: Option<&'a [u8]>, usual: &'static [u8]) -> &'a [u8]
    ensures { result.now ≡ word_or (lent_option given.entry) usual.now }
{
    match given {
        None => usual,
        Some(word) => word,
    }
}

fn has_name_length(name: &[u8]) -> bool
    ensures { result ≡ has_name_length name.now }
{
    1 <= name.len() && name.len() <= 1024
}

fn have_name_lengths(name: CellPort<'_>) -> bool
    ensures { result ≡ have_name_lengths (name_of name.entry) }
{
    has_name_length(name.cell) && has_name_length(name.port)
}

/// These names, where they are those of constants.
fn if_constants(zero: CellPort<'_>, one: CellPort<'_>) -> bool
    ensures { result ≡ are_constants
        (record { zero = name_of zero.entry; one = name_of one.entry }) }
{
    zero.cell != one.cell && have_name_lengths(zero) && have_name_lengths(one)
}

/// The names of the constants that these options choose, where they are some.
pub fn constants_of<'a>(zero: Option<&'a [u8]>, one: Option<&'a [u8]>) -> Option<Names<'a>>
    ensures names { MatchOption result
        (constants_of (lent_option zero.entry) (lent_option one.entry) ≡ None)
        (λ names. constants_of (lent_option zero.entry) (lent_option one.entry) ≡ Some (lent_names names)) }
    ensures checked { IfSome result (λ names. IsTrue (are_constants (lent_names names))) }
{
    let zero = cell_port(word_or(zero, b"GND.G"))?;
    let one = cell_port(word_or(one, b"VCC.P"))?;
    if if_constants(zero, one) {
        return Some(Names { zero, one });
    }
    None
}

/// Copies of the names of a constant.
fn copied_name(alloc: Global, name: CellPort<'_>) -> Result<ConstName, NoMemory>
    ensures { IfOk result (λ copy. copy ≡ name_of name.entry) }
{
    let cell = Text::copy(alloc, name.cell)?;
    let port = Text::copy(alloc, name.port)?;
    Ok(ConstName { cell, port })
}

/// The constants of names that were found to be those of some.
fn checked(zero: ConstName, one: ConstName) -> Constants
    requires { IsTrue (are_constants (record { zero = zero; one = one })) }
    ensures { result ≡ record { zero = zero; one = one } }
{
    match Constants::check(zero, one) {
        Some(constants) => constants,
        None => unreachable!(),
    }
}

/// Constants of these names, which are those of some.
pub fn copied_constants(alloc: Global, names: Names<'_>) -> Result<Constants, NoMemory>
    requires { IsTrue (are_constants (lent_names names)) }
    ensures { IfOk result (λ constants. constants ≡ lent_names names.entry) }
{
    let zero = copied_name(alloc, names.zero)?;
    let one = copied_name(alloc, names.one)?;
    Ok(checked(zero, one))
}
