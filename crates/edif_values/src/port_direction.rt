ghost use Rattle.std.specs.Prelude.{◌≡◌};
ghost use Rattle.edif_values.specs.Directions.{told, direction_of};

use crate::port::{Port, PortItem};
use nl_base::Dir;

/// The direction of a port, which is both ways where it has none. It takes no memory.
#[tactic(auto, using(crate::proofs::Told::directions_told))]
pub fn direction(port: &Port) -> Dir
    ensures { result ≡ direction_of port.now.items }
{
    for item in port.items.items() {
        if let Some(direction) = told(item) {
            return direction;
        }
    }
    Dir::Inout
}

/// The direction that an item tells, where it tells one.
#[tactic(auto, unfolding(crate::specs::Directions::told))]
fn told(item: &PortItem) -> Option<Dir>
    ensures { result ≡ told item.now }
{
    match item {
        PortItem::Direction(direction) => Some(*direction),
        _ => None,
    }
}
