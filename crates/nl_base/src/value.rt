use crate::number::{Int, Scaled};
use crate::text::Text;

/// The direction of a port.
#[derive(Clone, Copy, PartialEq, Eq)]
pub enum Dir {
    Input,
    Output,
    Inout,
}

/// The value of a property.
#[derive(Drop)]
pub enum PropValue {
    Str(Text),
    Int(Int),
    Flag(bool),
    Scaled(Scaled),
}
