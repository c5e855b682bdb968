// Based literals and their bits (IEEE 1364-2005, 3.5.1).
use nl_base::Text;

/// The base of a based literal.
#[derive(Clone, Copy, Debug, PartialEq, Eq)]
pub enum Base {
    Binary,
    Octal,
    Decimal,
    Hex,
}

/// A based literal without its size: the digits as they are written, without `_`.
#[derive(Drop)]
pub struct Based {
    pub signed: bool,
    pub base: Base,
    pub digits: Text,
}

/// A based literal of a size of 1 to 65,536 bits.
#[derive(Drop)]
pub struct Literal {
    pub size: u32,
    pub based: Based,
}

/// A bit of a literal.
#[derive(Clone, Copy, Debug, PartialEq, Eq)]
pub enum Bit {
    Zero,
    One,
    X,
    Z,
}
