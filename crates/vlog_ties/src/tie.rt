// What is tied to what.
use net_hier::Node;
use vlog_values::Expr;

/// A pin of an instance and its expression, the two sides of an assignment, or a supply net and its constant. A pin has the name and the
/// number of its instance, and the name, the number and the width of its port.
#[derive(Clone, Copy)]
pub enum Tie<'a> {
    Pin {
        instance: &'a [u8],
        number: u32,
        port: &'a [u8],
        port_number: u32,
        width: u32,
        value: &'a Expr,
    },
    Assign {
        left: &'a Expr,
        right: &'a Expr,
    },
    Supply {
        name: &'a [u8],
        constant: Node,
    },
}
