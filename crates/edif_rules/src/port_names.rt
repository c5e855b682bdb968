// The identifiers, original names, sizes and indexes of ports, whatever their sizes are.
ghost use Rattle.std.specs.Prelude.{◌≡◌};
ghost use Rattle.edif_values.specs.Names.{port_original};
ghost use Rattle.edif_design.specs.CellRules.{port_ident, port_name, size_of};

use crate::indexes::{Indexes, array_name};
use edif_values::{Port, PortName, original};

/// The identifier by which references name the port.
pub fn port_ident(port: &Port) -> &[u8]
    ensures { result.now ≡ port_ident port.now }
{
    match &port.name {
        PortName::Single(name) => name.ident.bytes(),
        PortName::Array(name, _) => name.ident.bytes(),
    }
}

/// The size of an array, as it is written.
pub fn port_size(port: &Port) -> Option<i64>
    ensures { result ≡ size_of port.now.name }
{
    match &port.name {
        PortName::Single(_) => None,
        PortName::Array(_, size) => Some(size.value()),
    }
}

/// The original name of the port, and the indexes of its bits where it is an array.
pub fn name_and_indexes(port: &Port) -> (&[u8], Option<Indexes>)
    ensures { (result.0.now, result.1) ≡ port_original port.now.name }
{
    match &port.name {
        PortName::Single(name) => (original(name), None),
        PortName::Array(name, size) => {
            let (base, indexes) = array_name(original(name), size.value());
            (base, Some(indexes))
        }
    }
}

/// The original name of the port.
pub fn port_name(port: &Port) -> &[u8]
    ensures { result.now ≡ port_name port.now }
{
    let (name, _) = name_and_indexes(port);
    name
}
