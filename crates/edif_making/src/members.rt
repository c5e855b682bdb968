// The nodes of the classes of a cell for which nets are written.
ghost use Rattle.std.specs.Prelude.{◌≡◌, ◌++◌, ◌∷◌, ◌<◌, List, [], cond, get_or, length, map, IfOk, OnOk};
ghost use Rattle.net_bits.specs.Classes.{members_of};
ghost use Rattle.net_hier.specs.declared.nodes.Node.{Node as NodeValue};
ghost use Rattle.net_live.specs.Live.{is_live as is_live_class};
ghost use Rattle.edif_plans.specs.Made.{live_below};
ghost use Rattle.edif_making.specs.Members.{AreLaid, IsListAt, lists_of as lists_at};

use net_bits::Classes;
use net_hier::{HCell, Node};
use net_live::is_live;
use nl_base::NoMemory;
use std::alloc::Global;
use std::marker::Model;

/// The nodes of classes. Contracts see them as a list for each class, in order; the lists lie one behind the other, since a list of its own
/// for each class would take more than the nodes in it.
#[derive(Drop)]
pub struct Members {
    starts: Vec<usize>,
    nodes: Vec<Node>,
}

impl Model for Members {
    ghost use Rattle.std.specs.Prelude.{List, length};
    ghost use Rattle.net_hier.specs.declared.nodes.Node.{Node};
    ghost use Rattle.edif_making.specs.Members.{IsLaid, lists_of};

    ghost Value = { List (List Node) };

    ghost view = { λ m. lists_of m.starts.items m.nodes.items };

    ghost invariant = { λ m. IsLaid m.starts.items (length m.nodes.items) };
}

impl Members {
    /// The number of the classes.
    #[tactic(auto, using(crate::proofs::MemberLaws::lists_count, crate::proofs::MemberLaws::some_start))]
    pub fn len(&self) -> usize
        ensures { result ≡ length self.now }
    {
        self.starts.len() - 1
    }

    /// The nodes of the class at this place.
    pub fn get(&self, place: usize) -> &[Node]
        requires { place < length self.now }
        ensures { result.now ≡ get_or self.now place [] }
    {
        nodes_at(self.starts.as_slice(), self.nodes.as_slice(), place)
    }
}

/// The nodes from the start at this place to the next one.
fn nodes_at<'a>(starts: &[usize], nodes: &'a [Node], place: usize) -> &'a [Node]
    requires { IsListAt starts.now nodes.now place }
    ensures { result.now ≡ get_or (lists_at starts.now nodes.now) place [] }
{
    let from = starts[place];
    let to = starts[place + 1];
    &nodes[from..to]
}

/// How many nodes the classes have, for room alone.
fn node_count(classes: &Classes) -> usize {
    let mut count: usize = 0;
    for class in 0..classes.count() {
        count = count.saturating_add(classes.members(class).len());
    }
    count
}

/// Adds the nodes of a class behind the others, where a net is written for it.
fn add_live(
    cell: &HCell,
    class: &[Node],
    starts: &mut Vec<usize>,
    nodes: &mut Vec<Node>,
) -> Result<(), NoMemory>
    ensures { (lists : List (List NodeValue)) → AreLaid lists starts.old.items nodes.old.items
        → OnOk result (AreLaid (lists
        ++ cond (is_live_class cell.now.nets class.now) (class.now ∷ []) [])
        starts.new.items nodes.new.items) }
{
    if !is_live(cell, class) {
        return Ok(());
    }
    nodes.extend_from_slice(class)?;
    let end = nodes.len();
    starts.push(end)?;
    Ok(())
}

/// The nodes of the classes for which nets are written.
pub fn live_members(alloc: Global, cell: &HCell, classes: &Classes) -> Result<Members, NoMemory>
    ensures { IfOk result (λ members. members
        ≡ map (members_of classes.now)
        (live_below cell.now.nets classes.now classes.now.count)) }
{
    let mut starts = Vec::with_capacity(alloc, (classes.count() as usize).saturating_add(1))?;
    let mut nodes = Vec::with_capacity(alloc, node_count(classes))?;
    starts.push(0)?;
    for class in 0..classes.count() {
        let members = classes.members(class);
        add_live(cell, members, &mut starts, &mut nodes)?;
    }
    Ok(Members { starts, nodes })
}
