// The names of nodes.
ghost use Rattle.std.specs.Prelude.{◌≡◌, ℕ, None, Some, codes, option_copied, slice_get, IfOk, OnOk};
ghost use Rattle.net_bits.specs.Classes.{AreClasses};
ghost use Rattle.net_bits.specs.Names.{AreUsed};
ghost use Rattle.net_hier.specs.declared.nodes.Node.{Node as NodeValue};
ghost use Rattle.net_live.specs.Live.{AreCounted};
ghost use Rattle.to_spice_rules.specs.Sets.{with_names};
ghost use Rattle.to_spice_nodes.specs.Naming.{IsNewName, if_free, is_free};
ghost use Rattle.to_spice_nodes.specs.Table.{GivesName, GivesNode, GivesNodes, HasNoNodes, HasOwnNodes, IsPinNode, IsSameBut, AddsName, name_in, around, net_name, root};

use indexmap::IndexMap;
use net_bits::{Classes, Names, fresh_name};
use net_hier::{HCell, Node};
use net_live::{bit_word, first_net};
use nl_base::{NoMemory, Seq, Text};
use spice_text::is_spice_word;
use std::alloc::Global;
use std::marker::Model;
use to_spice_rules::words_of;

/// The greatest number of bytes of a net's name that a node takes.
const NODE_LIMIT: usize = 1024;

/// The nodes that the pins of a cell have so far.
#[derive(Drop)]
pub struct Nodes {
    /// The node of each class that has one and no port bit, by the node that stands for the class.
    names: IndexMap<Node, Text>,
    /// The words of port bits, and the nodes.
    used: Names,
    /// The names `n` with lesser numbers are used.
    next: u64,
}

impl Model for Nodes {
    ghost use Rattle.to_spice_nodes.specs.Table.{NodeTable};

    ghost Value = { NodeTable };

    ghost view = { λ n. record { names = n.names.entries; used = n.used; next = n.next } };
}

/// The nodes of the class of the node; none where it is in no join.
fn around<'a>(classes: &'a Classes, node: &Node) -> &'a [Node]
    requires { AreCounted classes.now }
    ensures { result.now ≡ around classes.now node.now }
{
    match classes.class_of(node) {
        None => &[],
        Some(class) => classes.members(class),
    }
}

/// The node that stands for the node: the first of its class, or itself.
fn root_of(classes: &Classes, node: &Node) -> Node
    requires { AreCounted classes.now }
    ensures { result ≡ root classes.now node.now }
{
    match around(classes, node) {
        [] => *node,
        [first, ..] => *first,
    }
}

/// The name of the first net among the nodes.
fn net_name<'a>(cell: &'a HCell, nodes: &[Node]) -> Option<&'a [u8]>
    ensures { option_copied result ≡ net_name cell.now nodes.now }
{
    match first_net(nodes) {
        None => None,
        Some(number) => match cell.nets.items().get(number as usize) {
            None => None,
            Some(net) => Some(net.name.bytes()),
        },
    }
}

/// Whether a node can have the name.
fn is_free(used: &Names, name: &[u8]) -> bool
    ensures { result ≡ is_free used.now name.now }
{
    is_spice_word(name) && name.len() <= NODE_LIMIT && !used.has(name)
}

/// The name of the first net among the nodes, where a node can have it.
fn free_net_name<'a>(used: &Names, cell: &'a HCell, nodes: &[Node]) -> Option<&'a [u8]>
    ensures { option_copied result ≡ if_free used.now (net_name cell.now nodes.now) }
{
    match net_name(cell, nodes) {
        None => None,
        Some(name) => {
            if is_free(used, name) {
                return Some(name);
            }
            None
        }
    }
}

/// Adds names to a set.
fn use_names(alloc: Global, names: &[Text], used: &mut Names) -> Result<(), NoMemory>
    ensures { OnOk result (used.new ≡ with_names used.old names.now) }
{
    for name in names {
        used.add(alloc, name.bytes())?;
    }
    Ok(())
}

impl Nodes {
    /// No nodes of a cell.
    pub fn none(alloc: Global, cell: &HCell) -> Result<Nodes, NoMemory>
        ensures { IfOk result (HasNoNodes cell.now) }
    {
        let words = words_of(alloc, cell)?;
        let mut used = Names::new(alloc, true);
        use_names(alloc, words.items(), &mut used)?;
        Ok(Nodes {
            names: IndexMap::new(alloc),
            used,
            next: 0,
        })
    }

    /// A name that is made of a number.
    fn numbered(&mut self, alloc: Global) -> Result<Text, NoMemory>
        requires { AreUsed self.old.used (codes "n") self.old.next }
        ensures named { IfOk result (IsNewName self.old.used None) }
        ensures next { OnOk result (AreUsed self.new.used (codes "n") self.new.next) }
        ensures kept { OnOk result (IsSameBut self.old self.new) }
    {
        let (name, number) = fresh_name(alloc, &self.used, b"n", self.next)?;
        self.next = number;
        Ok(name)
    }

    /// A new name for the class of these nodes.
    fn new_name(&mut self, alloc: Global, cell: &HCell, nodes: &[Node]) -> Result<Text, NoMemory>
        requires { AreUsed self.old.used (codes "n") self.old.next }
        ensures named { IfOk result
            (IsNewName self.old.used (if_free self.old.used (net_name cell.now nodes.now))) }
        ensures next { OnOk result (AreUsed self.new.used (codes "n") self.new.next) }
        ensures kept { OnOk result (IsSameBut self.old self.new) }
    {
        match free_net_name(&self.used, cell, nodes) {
            None => {
                let name = self.numbered(alloc)?;
                Ok(name)
            }
            Some(name) => {
                let name = Text::copy(alloc, name)?;
                Ok(name)
            }
        }
    }

    /// The name that the class has for which the node stands.
    fn known(&self, alloc: Global, root: &Node) -> Result<Option<Text>, NoMemory>
        ensures { IfOk result (λ found. found ≡ name_in self.now.names root.now) }
    {
        match self.names.get(root) {
            None => Ok(None),
            Some(name) => {
                let name = Text::copy(alloc, name.bytes())?;
                Ok(Some(name))
            }
        }
    }

    /// Gives a new name to the class of these nodes, for which the node stands.
    fn add_name(
        &mut self,
        alloc: Global,
        cell: &HCell,
        nodes: &[Node],
        root: Node,
    ) -> Result<Text, NoMemory>
        requires next { AreUsed self.old.used (codes "n") self.old.next }
        requires new { name_in self.old.names root ≡ None }
        ensures { IfOk result (AddsName cell.now nodes.now root self.old self.new) }
    {
        let name = self.new_name(alloc, cell, nodes)?;
        self.used.add(alloc, name.bytes())?;
        let kept = Text::copy(alloc, name.bytes())?;
        if let Ok(_) = self.names.insert(root, kept) {
            return Ok(name);
        }
        Err(NoMemory)
    }

    /// The name of the class of these nodes, for which the node stands.
    fn name_class(
        &mut self,
        alloc: Global,
        cell: &HCell,
        nodes: &[Node],
        root: Node,
    ) -> Result<Text, NoMemory>
        requires { AreUsed self.old.used (codes "n") self.old.next }
        ensures { IfOk result (GivesName cell.now nodes.now root self.old self.new) }
    {
        let known = self.known(alloc, &root)?;
        match known {
            None => {
                let name = self.add_name(alloc, cell, nodes, root)?;
                Ok(name)
            }
            Some(name) => Ok(name),
        }
    }

    /// The node of a pin.
    fn name_pin(
        &mut self,
        alloc: Global,
        cell: &HCell,
        classes: &Classes,
        pin: &Node,
    ) -> Result<Text, NoMemory>
        requires classes { AreClasses cell.now classes.now }
        requires own { HasOwnNodes cell.now }
        requires pin { IsPinNode pin.now }
        requires next { AreUsed self.old.used (codes "n") self.old.next }
        ensures node { IfOk result (GivesNode cell.now classes.now pin.now self.old self.new) }
        ensures next { OnOk result (AreUsed self.new.used (codes "n") self.new.next) }
    {
        let root = root_of(classes, pin);
        match root {
            Node::Port { port, bit } => {
                let word = bit_word(alloc, &cell.ports.items()[port as usize], bit)?;
                Ok(word)
            }
            _ => {
                let name = self.name_class(alloc, cell, around(classes, pin), root)?;
                Ok(name)
            }
        }
    }

    /// The nodes of pins of the cell, in order. The classes are those of the cell.
    pub fn name_pins(
        &mut self,
        alloc: Global,
        cell: &HCell,
        classes: &Classes,
        pins: &[Node],
    ) -> Result<Seq<Text>, NoMemory>
        requires classes { AreClasses cell.now classes.now }
        requires own { HasOwnNodes cell.now }
        requires pins { (place : ℕ) (pin : NodeValue) → slice_get pins.now place ≡ Some pin
            → IsPinNode pin }
        requires next { AreUsed self.old.used (codes "n") self.old.next }
        ensures nodes { IfOk result (GivesNodes cell.now classes.now pins.now self.old self.new) }
        ensures next { OnOk result (AreUsed self.new.used (codes "n") self.new.next) }
    {
        let mut names = Seq::empty(alloc);
        for pin in pins {
            let name = self.name_pin(alloc, cell, classes, pin)?;
            names.push(name)?;
        }
        Ok(names)
    }
}
