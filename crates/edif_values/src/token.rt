// Tokens (EDIF 2 0 0, basic syntax).
use nl_base::{Ident, Int, Text};

/// A token.
#[derive(Drop)]
pub enum Token {
    LeftParen,
    RightParen,
    Word(Ident),
    Number(Int),
    Str(Text),
}
