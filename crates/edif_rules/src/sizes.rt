// The bits of ports that references mean, by the sizes of the ports as they are written.
ghost use Rattle.std.specs.Prelude.{◌≡◌};
ghost use Rattle.edif_design.specs.CellRules.{bit_of, is_no_member};

/// Whether this is no member of a port of this size: a member of a scalar, or an index outside 0 to the size less one.
pub fn is_no_member(size: Option<i64>, index: i64) -> bool
    ensures { result ≡ is_no_member size index }
{
    match size {
        None => true,
        Some(size) => index < 0 || !(index < size),
    }
}

/// The bit of a port of this size that a reference with this member means. A scalar has one bit, and only a port of one bit is meant
/// without a member.
pub fn bit_of(size: Option<i64>, member: Option<i64>) -> Option<u64>
    ensures { result ≡ bit_of size member }
{
    match (size, member) {
        (None, None) => Some(0),
        (None, Some(_)) => None,
        (Some(size), None) => if size < 1 || size > 1 { None } else { Some(0) },
        (Some(size), Some(index)) => {
            if is_no_member(Some(size), index) {
                None
            } else {
                Some(index as u64)
            }
        }
    }
}
