use nl_base::{Int, Place, Scaled, Text};
use vlog_values::Based;

/// A token.
#[derive(Drop)]
pub enum VToken {
    /// A name, without the `\` of an escaped one.
    Name(Text),
    Keyword(Text),
    Number(Int),
    Real(Scaled),
    Based(Based),
    /// A string's value.
    Str(Text),
    Punct(u8),
    /// `(*`
    AttrStart,
    /// `*)`
    AttrStop,
    Symbol(u8),
    /// A directive, with its backtick.
    Directive(Text),
}

/// A token, the place of its first byte, and the offset just past the byte that shows its end.
#[derive(Drop)]
pub struct VFound {
    pub place: Place,
    pub stop: u64,
    pub token: VToken,
}
