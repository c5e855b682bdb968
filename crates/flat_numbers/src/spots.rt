// The spots of a design: the top and every path.

/// A place in the flat design: the spot above it, the number of its instance in that spot's cell,
/// and its own cell.
#[derive(Clone, Copy, PartialEq, Eq)]
pub struct Spot {
    pub parent: u32,
    pub instance: u32,
    pub cell: u32,
}
