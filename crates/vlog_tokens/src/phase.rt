ghost use Rattle.std.specs.Prelude.{◌≡◌, ◌==◌, if◌then◌else◌, option_map};
ghost use Rattle.nl_bytes.specs.Classes.{is_verilog_space, is_based_byte, is_graphic};
ghost use Rattle.vlog_tokens.specs.declared.phase.Phase.TheVariants.{Point, Mark, Escaped, Letter};
ghost use Rattle.vlog_tokens.specs.declared.phase.Step.TheVariants.{Keep, Pass, Ends, Bad};
ghost use Rattle.vlog_tokens.specs.Phases.{next_step, based_step, first_digit, is_complete, most_of, is_open, is_digit, is_mark, is_sign, base_of, class_of};

use nl_bytes::Class;
use vlog_values::Base;

/// What the bytes of a token are so far.
#[derive(Clone, Copy)]
pub enum Phase {
    /// A name or a keyword.
    Word,
    /// After the `\` of an escaped name, which is not kept.
    Escape,
    Escaped,
    /// The digits of a number, or a real's digits before the point.
    Whole,
    /// After a real's point.
    Point,
    Fraction,
    /// After a real's `e`.
    Mark,
    /// After the sign of an exponent.
    Sign,
    Exponent,
    /// After the `'` of a based literal.
    Prefix,
    /// After the `s`.
    Signed,
    /// After the letter of a base.
    Letter(Base),
    Digits(Base),
    /// The one `x`, `z` or `?` of a decimal.
    Unknown,
    /// After a directive's backtick.
    Grave,
    Directive,
}

/// What the next byte is to a token.
#[derive(Clone, Copy)]
pub enum Step {
    /// One more byte of it.
    Keep(Phase),
    /// A byte that belongs to it and is not kept.
    Pass(Phase),
    /// The byte behind it.
    Ends,
    /// A byte that may not stand there.
    Bad,
}

pub fn is_mark(b: u8) -> bool
    ensures { result ≡ is_mark b }
{
    b == b'e' || b == b'E'
}

fn is_sign(b: u8) -> bool
    ensures { result ≡ is_sign b }
{
    b == b'+' || b == b'-'
}

/// Whether a byte is `x`, `z` or `?`.
pub fn is_open(b: u8) -> bool
    ensures { result ≡ is_open b }
{
    matches!(b, b'x' | b'X' | b'z' | b'Z' | b'?')
}

/// Whether a byte is a digit of a base; a decimal's are those of a number.
pub fn is_digit(base: Base, b: u8) -> bool
    ensures { result ≡ is_digit base b }
{
    match base {
        Base::Binary => b == b'0' || b == b'1' || is_open(b),
        Base::Octal => b'0' <= b && b <= b'7' || is_open(b),
        Base::Decimal => b.is_ascii_digit(),
        Base::Hex => {
            b.is_ascii_digit() || b'a' <= b && b <= b'f' || b'A' <= b && b <= b'F' || is_open(b)
        }
    }
}

/// The base of a letter.
pub fn base_of(b: u8) -> Option<Base>
    ensures { result ≡ base_of b }
{
    match b {
        b'b' | b'B' => Some(Base::Binary),
        b'o' | b'O' => Some(Base::Octal),
        b'd' | b'D' => Some(Base::Decimal),
        b'h' | b'H' => Some(Base::Hex),
        _ => None,
    }
}

fn based_step(b: u8) -> Step
    ensures { result ≡ based_step b }
{
    match base_of(b) {
        Some(base) => Step::Keep(Phase::Letter(base)),
        None => Step::Bad,
    }
}

fn first_digit(base: Base, b: u8) -> Step
    ensures { result ≡ first_digit base b }
{
    if is_digit(base, b) {
        return Step::Keep(Phase::Digits(base));
    }
    match base {
        Base::Decimal => {
            if is_open(b) {
                Step::Keep(Phase::Unknown)
            } else {
                Step::Bad
            }
        }
        _ => Step::Bad,
    }
}

/// One more byte, where it keeps the token in a phase, or else the other step.
fn keep_if(keeps: bool, phase: Phase, otherwise: Step) -> Step
    ensures { result ≡ (if keeps then Keep phase else otherwise) }
{
    if keeps {
        return Step::Keep(phase);
    }
    otherwise
}

/// What a byte is behind the digits of a real before its `e`: the `e`, or the byte behind the real.
fn mark_step(b: u8) -> Step
    ensures { result ≡ (if is_mark b then Keep Mark else Ends) }
{
    keep_if(is_mark(b), Phase::Mark, Step::Ends)
}

/// What a byte is behind a number: a point, an `e`, or the byte behind the number.
fn point_step(b: u8) -> Step
    ensures { result ≡ (if b == 46 then Keep Point else (if is_mark b then Keep Mark else Ends)) }
{
    keep_if(b == b'.', Phase::Point, mark_step(b))
}

/// What a byte is that is no digit behind digits of a based literal.
fn behind_digits(b: u8) -> Step
    ensures { result ≡ (if is_based_byte b then Bad else Ends) }
{
    if Class::BasedByte.contains(b) {
        return Step::Bad;
    }
    Step::Ends
}

/// What a byte is behind the letter of a base: white space, or the first digit.
fn letter_step(base: Base, b: u8) -> Step
    ensures { result ≡ (if is_verilog_space b then Pass (Letter base) else first_digit base b) }
{
    if Class::VerilogSpace.contains(b) {
        return Step::Pass(Phase::Letter(base));
    }
    first_digit(base, b)
}

/// What a byte is in an escaped name: white space ends it.
fn escaped_step(b: u8) -> Step
    ensures { result ≡ (if is_graphic b then Keep Escaped else
        (if is_verilog_space b then Ends else Bad)) }
{
    if Class::VerilogSpace.contains(b) {
        return keep_if(Class::Graphic.contains(b), Phase::Escaped, Step::Ends);
    }
    keep_if(Class::Graphic.contains(b), Phase::Escaped, Step::Bad)
}

/// What the next byte is to a token whose bytes are so far what the phase says.
#[tactic(auto, unfolding(crate::specs::Phases::next_step))]
pub fn next_step(phase: Phase, b: u8) -> Step
    ensures { result ≡ next_step phase b }
{
    let is_digit_byte = b.is_ascii_digit();
    let is_number_byte = Class::NumberByte.contains(b);
    match phase {
        Phase::Word => keep_if(Class::NameByte.contains(b), Phase::Word, Step::Ends),
        Phase::Escape => keep_if(Class::Graphic.contains(b), Phase::Escaped, Step::Bad),
        Phase::Escaped => escaped_step(b),
        Phase::Whole => keep_if(is_number_byte, Phase::Whole, point_step(b)),
        Phase::Point => keep_if(is_digit_byte, Phase::Fraction, Step::Bad),
        Phase::Fraction => keep_if(is_number_byte, Phase::Fraction, mark_step(b)),
        Phase::Mark => keep_if(
            is_digit_byte,
            Phase::Exponent,
            keep_if(is_sign(b), Phase::Sign, Step::Bad),
        ),
        Phase::Sign => keep_if(is_digit_byte, Phase::Exponent, Step::Bad),
        Phase::Exponent => keep_if(is_number_byte, Phase::Exponent, Step::Ends),
        Phase::Prefix => keep_if(b == b's' || b == b'S', Phase::Signed, based_step(b)),
        Phase::Signed => based_step(b),
        Phase::Letter(base) => letter_step(base, b),
        Phase::Digits(base) => keep_if(
            is_digit(base, b) || b == b'_',
            Phase::Digits(base),
            behind_digits(b),
        ),
        Phase::Unknown => keep_if(b == b'_', Phase::Unknown, behind_digits(b)),
        Phase::Grave => keep_if(
            b.is_ascii_alphabetic() || b == b'_',
            Phase::Directive,
            Step::Bad,
        ),
        Phase::Directive => keep_if(Class::WordByte.contains(b), Phase::Directive, Step::Ends),
    }
}

/// Whether the bytes so far are a token.
#[tactic(auto, unfolding(crate::specs::Phases::is_complete))]
pub fn is_complete(phase: Phase) -> bool
    ensures { result ≡ is_complete phase }
{
    match phase {
        Phase::Word => true,
        Phase::Escaped => true,
        Phase::Whole => true,
        Phase::Fraction => true,
        Phase::Exponent => true,
        Phase::Digits(_) => true,
        Phase::Unknown => true,
        Phase::Directive => true,
        _ => false,
    }
}

/// How many bytes of a token may be kept.
#[tactic(auto, unfolding(crate::specs::Phases::most_of))]
pub fn most_of(phase: Phase) -> usize
    ensures { result ≡ most_of phase }
{
    match phase {
        Phase::Word => 1024,
        Phase::Escape => 1024,
        Phase::Escaped => 1024,
        Phase::Grave => 1024,
        Phase::Directive => 1024,
        _ => 131_072,
    }
}

/// The class of bytes that keep a token in its phase, where it is one of those that are read at once.
#[tactic(auto, unfolding(crate::specs::Phases::class_of))]
pub fn class_of(phase: Phase) -> Option<Class>
    ensures { result ≡ class_of phase }
{
    match phase {
        Phase::Word => Some(Class::NameByte),
        Phase::Escaped => Some(Class::Graphic),
        Phase::Whole => Some(Class::NumberByte),
        Phase::Fraction => Some(Class::NumberByte),
        Phase::Exponent => Some(Class::NumberByte),
        Phase::Directive => Some(Class::WordByte),
        _ => None,
    }
}
