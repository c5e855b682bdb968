use edif_values::Token;
use nl_base::Place;

/// A token, the place of its first byte, and the offset just past the byte that shows its end.
#[derive(Drop)]
pub struct Found {
    pub place: Place,
    pub stop: u64,
    pub token: Token,
}
