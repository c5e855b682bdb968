// The local classes of a cell, and which of them are written.
ghost use Rattle.std.specs.Prelude.{◌≡◌, ◌<◌, ◌≤◌, get_or, map, length, slice_index_or, IfOk, IfSome, false};
ghost use Rattle.std.specs.List.{range_with_len};
ghost use Rattle.net_bits.specs.Classes.{members_of};
ghost use Rattle.net_live.specs.Live.{is_live as is_live_class};
ghost use Rattle.to_verilog_classes.specs.Groups.{AreGroups, around, live_class, root};

use net_bits::Classes;
use net_hier::{HCell, Node};
use net_live::is_live;
use nl_base::NoMemory;
use std::alloc::Global;
use std::marker::Model;

/// The local classes of a cell, and for each whether it is live: it has two members or more among the port bits, the pin bits and the
/// constants, or a port bit or a pin bit and a property of a net.
#[derive(Drop)]
pub struct Groups {
    classes: Classes,
    live: Vec<bool>,
}

impl Model for Groups {
    ghost use Rattle.to_verilog_classes.specs.Groups.{GroupTable, HasMarks};

    ghost Value = { GroupTable };

    ghost view = { λ g. record { classes = g.classes; live = g.live.items } };

    ghost invariant = { λ g. HasMarks (record { classes = g.classes; live = g.live.items }) };
}

/// For each class whether it is written.
fn live_classes(alloc: Global, cell: &HCell, classes: &Classes) -> Result<Vec<bool>, NoMemory>
    ensures { IfOk result
        (λ live. live.items
        ≡ map (λ class. is_live_class cell.now.nets (members_of classes.now class))
        (range_with_len 0 classes.now.count)) }
{
    let mut live = Vec::new(alloc);
    for class in 0..classes.count() {
        live.push(is_live(cell, classes.members(class)))?;
    }
    Ok(live)
}

impl Groups {
    /// The classes of a cell.
    pub fn of_cell(alloc: Global, cell: &HCell) -> Result<Groups, NoMemory>
        requires { length cell.now.joins ≤ 33554432 }
        ensures { IfOk result (AreGroups cell.now) }
    {
        let classes = Classes::of_cell_uncounted(alloc, cell)?;
        let live = live_classes(alloc, cell, &classes)?;
        Ok(Groups { classes, live })
    }

    /// How many classes there are.
    pub fn count(&self) -> u32
        ensures { result ≡ self.now.classes.count }
    {
        self.classes.count()
    }

    /// Whether the class is written.
    pub fn is_live(&self, class: u32) -> bool
        requires { class < self.now.classes.count }
        ensures { result ≡ slice_index_or self.now.live class false }
    {
        self.live[class as usize]
    }

    /// The nodes of the class, in order.
    pub fn members(&self, class: u32) -> &[Node]
        requires { class < self.now.classes.count }
        ensures { result.now ≡ members_of self.now.classes class }
    {
        self.classes.members(class)
    }

    /// The nodes of the class of the node; none where the node is in no join.
    pub fn around(&self, node: &Node) -> &[Node]
        ensures { result.now ≡ around self.now node.now }
    {
        match self.classes.class_of(node) {
            None => &[],
            Some(class) => self.classes.members(class),
        }
    }

    /// The class of the node, where it is written.
    pub fn live_class(&self, node: &Node) -> Option<u32>
        ensures class { result ≡ live_class self.now node.now }
        ensures below { IfSome result (λ class. class < self.now.classes.count) }
    {
        match self.classes.class_of(node) {
            None => None,
            Some(class) => {
                if self.live[class as usize] {
                    return Some(class);
                }
                None
            }
        }
    }

    /// The node that stands for the node: the first of its class, where that is written, else the node itself.
    pub fn root(&self, node: &Node) -> Node
        ensures { result ≡ root self.now node.now }
    {
        match self.live_class(node) {
            None => *node,
            Some(class) => self.first_of(class, node),
        }
    }

    /// The first node of the class, or this one where it has none.
    fn first_of(&self, class: u32, node: &Node) -> Node
        requires { class < self.now.classes.count }
        ensures { result ≡ get_or (members_of self.now.classes class) 0 node.now }
    {
        match self.classes.members(class).first() {
            None => *node,
            Some(first) => *first,
        }
    }
}
