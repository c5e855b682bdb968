// The original names of objects and of ports.
ghost use Rattle.std.specs.Prelude.{◌≡◌, ◌≤◌, pos, option_map};
ghost use Rattle.edif_values.specs.Names.{original, array_name, port_original, HasSize, NamesPort};

use crate::name::{NameDef, PortName};
use nl_base::{Range, split_range};

/// The original name of an object: the text of its `rename`, else its identifier.
pub fn original(name: &NameDef) -> &[u8]
    ensures { result.now ≡ original name.now }
{
    match name.text.bytes() {
        Some(text) => text,
        None => name.ident.bytes(),
    }
}

/// The original name and the range of an array of this text and size.
fn array_name(text: &[u8], size: u32) -> (&[u8], Range)
    requires least { 1 ≤ size }
    requires most { size ≤ 65536 }
    ensures { (result.0.now, result.1) ≡ array_name text.now (pos size) }
{
    if let Some(form) = split_range(text, size) {
        return (&text[..form.0], form.1);
    }
    let whole = Range {
        left: size as i32 - 1,
        right: 0,
    };
    (text, whole)
}

/// The original name of a port, and its range where it is an array. The name of an array is the base of a text such as `bus[7:0]` that has the
/// array's size; any other text is the name itself, with the range SIZE-1:0. The size has to be from 1 to 65,536 bits.
pub fn port_original(name: &PortName) -> (&[u8], Option<Range>)
    requires { HasSize name.now }
    ensures value { (result.0.now, result.1) ≡ port_original name.now }
    ensures names { NamesPort name.now result.0.now result.1 }
{
    match name {
        PortName::Single(name) => (original(name), None),
        PortName::Array(name, size) => {
            let (base, range) = array_name(original(name), size.value() as u32);
            (base, Some(range))
        }
    }
}
