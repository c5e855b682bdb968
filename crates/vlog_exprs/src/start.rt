// How expressions and constants begin.
use nl_base::{Int, Text};
use vlog_values::{Based, Const};

/// The first token of an expression.
#[derive(Drop)]
pub enum ExprStart {
    Name(Text),
    /// A number, which may be the size of digits, or a repeat count behind a brace.
    Number(Int),
    Based(Based),
    Brace,
}

/// The first token of a constant.
#[derive(Drop)]
pub enum ConstStart {
    /// A constant that is one token.
    Whole(Const),
    /// A sign, and whether it is `-`.
    Sign(bool),
    /// A number, which may be the size of digits.
    Number(Int),
}
