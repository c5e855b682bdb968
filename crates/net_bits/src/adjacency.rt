ghost use Rattle.std.specs.Prelude.{◌≡◌, ℕ, ◌+◌, ◌*◌, ◌<◌, ◌≤◌, ◌^◌, List, [], length, slice_get, Some, slice_index, slice_index_or, sum_by, IfOk};

use crate::joined::{Joined, joined_ends, other_numbers};
use crate::parts::{Groups, groups_of, part_of};
use crate::steps::Steps;
use net_hier::{HCell, Node};
use nl_base::NoMemory;
use std::alloc::Global;
use std::marker::Model;
use std::sync::ledger::Ledger;

/// The joined nodes of a cell, numbered in their order, and for each the numbers of the nodes at the other ends of its joins.
#[derive(Drop)]
pub struct Adjacency {
    nodes: Vec<Node>,
    starts: Vec<u32>,
    others: Vec<u32>,
}

impl Model for Adjacency {
    ghost use Rattle.std.specs.Prelude.{length};
    ghost use Rattle.net_bits.specs.Neighbours.{Neighbours, AreFew};
    ghost use Rattle.net_bits.specs.Parts.{AreStarts, parts};

    ghost Value = { Neighbours };

    ghost view = { λ a. record { nodes = a.nodes.items; lists = parts a.starts.items a.others.items } };

    ghost invariant = { λ a. AreFew (record { nodes = a.nodes.items; lists = parts a.starts.items a.others.items }) × AreStarts a.starts.items (length a.others.items) };
}

impl Adjacency {
    ghost use Rattle.net_bits.specs.Neighbours.{AreNeighbours, joined_count};

    /// The joined nodes of the cell, and their neighbours. The cell has at most 33,554,432 joins.
    pub fn of_cell(alloc: Global, cell: &HCell) -> Result<Adjacency, NoMemory>
        requires { length cell.now.joins ≤ 33554432 }
        ensures neighbours { IfOk result (AreNeighbours cell.now) }
        ensures count { IfOk result (λ adjacency. length adjacency.nodes ≡ joined_count cell.now) }
        ensures degrees { IfOk result
            (λ adjacency. sum_by length adjacency.lists ≡ 2 * length cell.now.joins) }
    {
        let joins = cell.joins.items();
        let Joined { nodes, numbers } = joined_ends(alloc, joins)?;
        let count = nodes.len() as u32;
        let Groups { starts, places } = groups_of(alloc, numbers.as_slice(), count)?;
        let others = other_numbers(alloc, numbers.as_slice(), places.as_slice())?;
        Ok(Adjacency {
            nodes,
            starts,
            others,
        })
    }

    /// How many nodes there are.
    pub fn count(&self) -> u32
        ensures { result ≡ length self.now.nodes }
    {
        self.nodes.len() as u32
    }

    /// How many neighbours the node of this number has.
    pub fn degree(&self, number: u32) -> u32
        requires { number < length self.now.nodes }
        ensures { result ≡ length (slice_index_or self.now.lists number []) }
    {
        let place = number as usize;
        self.starts[place + 1] - self.starts[place]
    }

    /// The node of this number. It counts one step.
    pub fn node<L: Ledger>(&self, number: u32, steps: &mut Steps<L>) -> Node
        requires { number < length self.now.nodes }
        ensures node { slice_get self.now.nodes number ≡ Some result }
        ensures cost { steps.new ≡ steps.old + 1 }
    {
        steps.tick();
        self.nodes[number as usize]
    }

    /// The number of the neighbour at this place in the list of the node of this number. It counts one step.
    pub fn neighbour<L: Ledger>(&self, number: u32, place: u32, steps: &mut Steps<L>) -> u32
        requires number { number < length self.now.nodes }
        requires place { place < length (slice_index_or self.now.lists number []) }
        ensures neighbour { result ≡ slice_index (slice_index_or self.now.lists number []) place }
        ensures cost { steps.new ≡ steps.old + 1 }
    {
        steps.tick();
        let list = part_of(
            self.starts.as_slice(),
            self.others.as_slice(),
            number as usize,
        );
        list[place as usize]
    }

    // The nodes.
    pub(crate) fn into_nodes(self) -> Vec<Node>
        ensures { result.items ≡ self.nodes }
    {
        let Adjacency {
            nodes,
            starts: _,
            others: _,
        } = self;
        nodes
    }
}
