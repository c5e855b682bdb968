// Names that are too long.
ghost use Rattle.std.specs.Prelude.{◌≡◌};
ghost use Rattle.net_flatten_rules.specs.Rules.{IsFirst, is_long, long, long_stub, long_object, long_ports, long_props};

use net_hier::{HCell, HPort, HProp};

/// The greatest number of bytes of a name of a flattened design.
pub const NAME_LIMIT: usize = 1024;

/// A name that is too long, and the word for its object.
#[derive(Clone, Copy)]
pub struct Long<'a> {
    pub kind: &'static [u8],
    pub name: &'a [u8],
}

/// Whether a name is longer than a flattened design has it.
pub fn is_long(name: &[u8]) -> bool
    ensures { result ≡ is_long name.now }
{
    name.len() > NAME_LIMIT
}

/// The name of an object, where it is too long.
fn in_name<'a>(kind: &'static [u8], name: &'a [u8]) -> Option<Long<'a>>
    ensures { IsFirst (long kind.now name.now) result }
{
    if is_long(name) {
        return Some(Long { kind, name });
    }
    None
}

/// The first name among properties that is too long.
pub fn in_props(props: &[HProp]) -> Option<Long<'_>>
    ensures { IsFirst (long_props props.now) result }
{
    for prop in props {
        if let Some(found) = in_name(b"property", prop.name.bytes()) {
            return Some(found);
        }
    }
    None
}

/// That of an object with properties.
fn in_object<'a>(kind: &'static [u8], name: &'a [u8], props: &'a [HProp]) -> Option<Long<'a>>
    ensures { IsFirst (long_object kind.now name.now props.now) result }
{
    if let Some(found) = in_name(kind, name) {
        return Some(found);
    }
    in_props(props)
}

/// That of ports and their properties.
fn in_ports(ports: &[HPort]) -> Option<Long<'_>>
    ensures { IsFirst (long_ports ports.now) result }
{
    for port in ports {
        if let Some(found) = in_object(b"port", port.name.bytes(), port.props.items()) {
            return Some(found);
        }
    }
    None
}

/// That of a cell, its properties and its ports.
pub fn in_stub(cell: &HCell) -> Option<Long<'_>>
    ensures { IsFirst (long_stub cell.now) result }
{
    if let Some(found) = in_object(b"cell", cell.name.bytes(), cell.props.items()) {
        return Some(found);
    }
    in_ports(cell.ports.items())
}
