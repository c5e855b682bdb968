ghost use Rattle.std.specs.Prelude.{◌≡◌, ℕ, ◌+◌, ◌*◌, ◌<◌, ◌≤◌, ◌^◌, Some, All, length, map, slice_index_or, IfOk};
ghost use Rattle.net_hier.specs.declared.nodes.Node.TheVariants.{Zero};
ghost use Rattle.net_bits.specs.Classes.{AreClasses, class_of, members_of, step_bound};

use crate::adjacency::Adjacency;
use crate::flood::number_classes;
use crate::parts::{Groups, groups_of, part_of};
use crate::steps::Steps;
use net_hier::{HCell, Node};
use nl_base::NoMemory;
use std::alloc::Global;
use std::marker::{Brand, Model};
use std::sync::ledger::{Blank, Ledger};

/// The classes of locally connected nodes of a cell. They are numbered from 0, in the order of their least nodes.
#[derive(Drop)]
pub struct Classes {
    nodes: Vec<Node>,
    numbers: Vec<u32>,
    starts: Vec<u32>,
    members: Vec<Node>,
}

impl Model for Classes {
    ghost use Rattle.std.specs.Prelude.{◌-◌, length};
    ghost use Rattle.net_bits.specs.Classes.{ClassTable, HasMembers};

    ghost Value = { ClassTable };

    ghost view = { λ c. record { nodes = c.nodes.items; numbers = c.numbers.items; count = length c.starts.items - 1 } };

    ghost invariant = { λ c. HasMembers (record { nodes = c.nodes.items; numbers = c.numbers.items; count = length c.starts.items - 1 }) c.starts.items c.members.items };
}

impl Classes {
    /// The classes of a cell, which has at most 33,554,432 joins. The counter rises by at most one for each joined node and two for each join.
    pub fn of_cell<L: Ledger>(
        alloc: Global,
        cell: &HCell,
        steps: &mut Steps<L>,
    ) -> Result<Classes, NoMemory>
        requires { length cell.now.joins ≤ 33554432 }
        ensures classes { IfOk result (AreClasses cell.now) }
        ensures cost { steps.new ≤ steps.old + step_bound cell.now }
    {
        let adjacency = Adjacency::of_cell(alloc, cell)?;
        let (numbers, count) = number_classes(alloc, &adjacency, steps)?;
        let Groups { starts, places } = groups_of(alloc, numbers.as_slice(), count)?;
        let members = nodes_at(alloc, &adjacency, places.as_slice(), steps)?;
        let nodes = adjacency.into_nodes();
        Ok(Classes {
            nodes,
            numbers,
            starts,
            members,
        })
    }

    /// The classes of a cell, which has at most 33,554,432 joins, for a caller that counts no steps.
    pub fn of_cell_uncounted(alloc: Global, cell: &HCell) -> Result<Classes, NoMemory>
        requires { length cell.now.joins ≤ 33554432 }
        ensures { IfOk result (AreClasses cell.now) }
    {
        let classes = of_cell_from::<Brand>(alloc, cell, Blank::new(1))?;
        Ok(classes)
    }

    /// The number of the node's class, where the node is in a join.
    pub fn class_of(&self, node: &Node) -> Option<u32>
        ensures { result ≡ class_of self.now node.now }
    {
        match self.nodes.binary_search(node) {
            Ok(number) => self.numbers.get(number).copied(),
            Err(_) => None,
        }
    }

    /// How many classes there are.
    pub fn count(&self) -> u32
        ensures { result ≡ self.now.count }
    {
        (self.starts.len() - 1) as u32
    }

    /// The joined nodes of the class of this number, in order.
    pub fn members(&self, class: u32) -> &[Node]
        requires { class < self.now.count }
        ensures { result.now ≡ members_of self.now class }
    {
        part_of(
            self.starts.as_slice(),
            self.members.as_slice(),
            class as usize,
        )
    }
}

// The classes of a cell, counted from 0 on a new ledger.
fn of_cell_from<L: Ledger>(alloc: Global, cell: &HCell, blank: Blank) -> Result<Classes, NoMemory>
    requires joins { length cell.now.joins ≤ 33554432 }
    requires name { blank.name ≡ L.name }
    requires parts { blank.parts ≡ L.parts }
    requires shares { 0 < blank.parts }
    ensures { IfOk result (AreClasses cell.now) }
{
    let mut steps = Steps::<L>::start(blank);
    let classes = Classes::of_cell(alloc, cell, &mut steps)?;
    Ok(classes)
}

// The nodes of these numbers.
fn nodes_at<L: Ledger>(
    alloc: Global,
    adjacency: &Adjacency,
    places: &[u32],
    steps: &mut Steps<L>,
) -> Result<Vec<Node>, NoMemory>
    requires { All (λ place. place < length adjacency.now.nodes) places.now }
    ensures nodes { IfOk result
        (λ nodes. nodes.items ≡ map
        (λ place. slice_index_or adjacency.now.nodes place Zero) places.now) }
    ensures cost { steps.new ≤ steps.old + length places.now }
{
    let mut nodes = Vec::with_capacity(alloc, places.len())?;
    for place in places {
        let node = adjacency.node(*place, steps);
        nodes.push(node)?;
    }
    Ok(nodes)
}
