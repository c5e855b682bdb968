ghost use Rattle.std.specs.Prelude.{◌≡◌};
ghost use Rattle.vlog_tokens.specs.Spelling.{start_of, begins_name, is_mark, is_symbol};

use crate::phase::Phase;
use nl_bytes::Class;

/// What a byte begins.
#[derive(Clone, Copy)]
pub enum Start {
    /// White space.
    White,
    /// A name, a keyword, a number, a real, a based literal or a directive.
    Lexeme(Phase),
    /// A string.
    Quote,
    /// `(` or `(*`
    Open,
    /// `*` or `*)`
    Star,
    /// `/` or a comment.
    Slash,
    /// Any other punctuation.
    Mark,
    /// Any other symbol.
    Sign,
    /// No token.
    Other,
}

/// Whether a byte begins a simple name or a keyword.
#[inline(always)]
pub fn begins_name(b: u8) -> bool
    ensures { result ≡ begins_name b }
{
    b.is_ascii_alphabetic() || b == b'_'
}

/// Whether a byte is punctuation that begins no longer token.
#[inline(always)]
pub fn is_mark(b: u8) -> bool
    ensures { result ≡ is_mark b }
{
    matches!(
        b,
        b')' | b'[' | b']' | b'{' | b'}' | b',' | b';' | b':' | b'.' | b'#' | b'=' | b'+' | b'-'
    )
}

fn is_symbol(b: u8) -> bool
    ensures { result ≡ is_symbol b }
{
    matches!(
        b,
        b'!' | b'$' | b'%' | b'&' | b'<' | b'>' | b'?' | b'@' | b'^' | b'|' | b'~'
    )
}

/// What a byte begins.
pub fn start_of(b: u8) -> Start
    ensures { result ≡ start_of b }
{
    if Class::VerilogSpace.contains(b) {
        return Start::White;
    }
    if begins_name(b) {
        return Start::Lexeme(Phase::Word);
    }
    if b.is_ascii_digit() {
        return Start::Lexeme(Phase::Whole);
    }
    match b {
        b'\\' => Start::Lexeme(Phase::Escape),
        b'\'' => Start::Lexeme(Phase::Prefix),
        b'`' => Start::Lexeme(Phase::Grave),
        b'"' => Start::Quote,
        b'(' => Start::Open,
        b'*' => Start::Star,
        b'/' => Start::Slash,
        _ => {
            if is_mark(b) {
                return Start::Mark;
            }
            if is_symbol(b) {
                return Start::Sign;
            }
            Start::Other
        }
    }
}
