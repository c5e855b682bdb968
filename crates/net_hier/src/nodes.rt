// What joins name: the nodes of a cell.
ghost use Rattle.std.specs.Prelude.{◌≡◌};
ghost use Rattle.std.specs.Cmp.{partial_order_from_own_ties};
ghost use Rattle.std.specs.Cmp.Rules.{comparing};
ghost use Rattle.std.specs.Ordering.{as_partial_cmp};
ghost use Rattle.std.proofs.Common.{rules};
ghost use Rattle.net_hier.specs.Nodes.{node_cmp, node_kind, node_cmp_total};
ghost use Rattle.net_hier.specs.NodeTies.{node_ties};

use std::cmp::Ordering;

/// A node of a cell: a bit of one of its ports, a bit of a port of one of its instances, a net, or a constant.
/// Ports, instances and nets are named by their numbers in the cell, and a bit by its position from the left.
/// Nodes are ordered as they are listed here, and then by their fields from left to right.
#[derive(Clone, Copy, PartialEq, Eq, Hash)]
pub enum Node {
    Port { port: u32, bit: u32 },
    Pin { instance: u32, port: u32, bit: u32 },
    Net(u32),
    Zero,
    One,
}

/// Two nodes that are connected.
#[derive(Clone, Copy, PartialEq, Eq)]
pub struct Join {
    pub a: Node,
    pub b: Node,
}

impl Ord for Node {
    ghost cmp = { node_cmp };

    ghost total = { node_cmp_total };

    ghost matches_partial_cmp = { Prim.search (comparing, rules) };

    ghost matches_eq = { node_ties };

    fn cmp(&self, other: &Node) -> Ordering {
        match (*self, *other) {
            (
                Node::Port { port, bit },
                Node::Port {
                    port: other_port,
                    bit: other_bit,
                },
            ) => { port.cmp(&other_port).then(bit.cmp(&other_bit)) }
            (
                Node::Pin {
                    instance,
                    port,
                    bit,
                },
                Node::Pin {
                    instance: other_instance,
                    port: other_port,
                    bit: other_bit,
                },
            ) => instance
                .cmp(&other_instance)
                .then(port.cmp(&other_port).then(bit.cmp(&other_bit))),
            (Node::Net(net), Node::Net(other_net)) => net.cmp(&other_net),
            (this, other) => this.kind().cmp(&other.kind()),
        }
    }
}

impl PartialOrd for Node {
    ghost partial_cmp = { as_partial_cmp node_cmp };

    ghost laws = { partial_order_from_own_ties (Prim.search (comparing, rules)) node_ties };

    fn partial_cmp(&self, other: &Node) -> Option<Ordering> {
        Some(self.cmp(other))
    }
}

impl Node {
    // The place of its kind in the order of kinds.
    fn kind(&self) -> u8
        ensures { result ≡ node_kind self.now }
    {
        match self {
            Node::Port { .. } => 0,
            Node::Pin { .. } => 1,
            Node::Net(_) => 2,
            Node::Zero => 3,
            Node::One => 4,
        }
    }
}
