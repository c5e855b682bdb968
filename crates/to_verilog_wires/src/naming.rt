// Names of wires.
ghost use Rattle.std.specs.Prelude.{◌≡◌, ◌<◌, ◌^◌, ◌++◌, ◌∷◌, [], length, map, codes, false, None, option_map, IfOk, OnOk};
ghost use Rattle.net_bits.specs.Names.{AreUsed, IsFresh, has_name};
ghost use Rattle.to_verilog_wires.specs.Wires.{HasNoWires, HasOneMore, IsNamed, IsSameBut};
ghost use Rattle.to_verilog_wires.specs.Naming.{is_free, wire_attrs, with_names};
ghost use Rattle.vlog_values.specs.declared.declaration.NetKind.TheVariants.{Wire};

use net_bits::{Names, fresh_name};
use net_hier::{HCell, HInst, HPort, Node};
use net_live::{class_props, first_net};
use nl_base::{BoxedList, InlineList, NoMemory, Seq, Text};
use std::alloc::Global;
use to_verilog_props::attrs_of;
use to_verilog_rules::is_name;
use vlog_values::{Attr, ItemV, NetDecl, NetKind};

/// Wires, whose names are of their own.
#[derive(Drop)]
pub struct Wires {
    /// The names of ports, instances and wires.
    used: Names,
    /// The names `n` with lesser numbers are used.
    next: u64,
    /// The names of the wires.
    names: Seq<Text>,
    /// The declarations of the wires.
    decls: Seq<ItemV>,
}

/// Adds the names of ports.
fn use_ports(alloc: Global, ports: &[HPort], used: &mut Names) -> Result<(), NoMemory>
    ensures added { OnOk result (used.new
        ≡ with_names used.old (map (λ port. port.name) ports.now)) }
{
    for port in ports {
        used.add(alloc, port.name.bytes())?;
    }
    Ok(())
}

/// Adds the names of instances.
fn use_instances(alloc: Global, instances: &[HInst], used: &mut Names) -> Result<(), NoMemory>
    ensures added { OnOk result (used.new
        ≡ with_names used.old (map (λ instance. instance.name) instances.now)) }
{
    for instance in instances {
        used.add(alloc, instance.name.bytes())?;
    }
    Ok(())
}

/// The attributes of the wire of a class of these nodes: the properties of its nets.
fn attrs_for(alloc: Global, cell: &HCell, nodes: &[Node]) -> Result<BoxedList<Attr>, NoMemory>
    ensures { IfOk result (λ attrs. attrs ≡ wire_attrs cell.now nodes.now) }
{
    let gathered = class_props(alloc, cell, nodes)?;
    let attrs = attrs_of(alloc, gathered.as_slice())?;
    Ok(attrs)
}

/// The declaration of a wire.
fn wire_decl(alloc: Global, attrs: BoxedList<Attr>, name: &[u8]) -> Result<NetDecl, NoMemory>
    ensures { IfOk result (λ made. made ≡ record {
      attrs = attrs;
      kind = Wire;
      signed = false;
      range = None;
      names = name.now ∷ [];
    }) }
{
    let name = Text::copy(alloc, name)?;
    Ok(NetDecl {
        attrs,
        kind: NetKind::Wire,
        signed: false,
        range: None,
        names: InlineList::one(name),
    })
}

/// Whether a wire can have the name.
fn is_free(used: &Names, name: &[u8]) -> bool
    ensures { result ≡ is_free used.now name.now }
{
    is_name(name) && !used.has(name)
}

impl Wires {
    /// No wires of a cell.
    pub fn none(alloc: Global, cell: &HCell) -> Result<Wires, NoMemory>
        ensures { IfOk result (HasNoWires cell.now) }
    {
        let mut used = Names::new(alloc, false);
        use_ports(alloc, cell.ports.items(), &mut used)?;
        use_instances(alloc, cell.instances.items(), &mut used)?;
        Ok(Wires {
            used,
            next: 0,
            names: Seq::empty(alloc),
            decls: Seq::empty(alloc),
        })
    }

    /// How many wires there are.
    pub fn len(&self) -> usize
        ensures { result ≡ length self.now.names }
    {
        self.names.len()
    }

    /// The names of the wires, and their declarations.
    pub fn into_parts(self) -> (Seq<Text>, Seq<ItemV>)
        ensures names { result.0 ≡ self.names }
        ensures decls { result.1 ≡ self.decls }
    {
        let Wires { names, decls, .. } = self;
        (names, decls)
    }

    /// A name that is not used, made of a number.
    fn numbered(&mut self, alloc: Global) -> Result<Text, NoMemory>
        requires { AreUsed self.old.used (codes "n") self.old.next }
        ensures fresh { IfOk result (λ name. IsFresh self.old.used (codes "n") name self.new.next) }
        ensures bound { OnOk result (self.new.next < 2 ^ 64) }
        ensures kept { OnOk result (IsSameBut self.old self.new) }
    {
        let (name, number) = fresh_name(alloc, &self.used, b"n", self.next)?;
        self.next = number;
        Ok(name)
    }

    /// The name of the wire of a class of these nodes: that of its first net, where this is free, else one that is made of a number.
    fn name_for(&mut self, alloc: Global, cell: &HCell, nodes: &[Node]) -> Result<Text, NoMemory>
        requires { AreUsed self.old.used (codes "n") self.old.next }
        ensures new { IfOk result (λ name. has_name self.old.used name ≡ false) }
        ensures named { IfOk result (IsNamed self.old.used) }
        ensures next { OnOk result (AreUsed self.new.used (codes "n") self.new.next) }
        ensures kept { OnOk result (IsSameBut self.old self.new) }
    {
        if let Some(net) = first_net(nodes) {
            if let Some(net) = cell.nets.items().get(net as usize) {
                if is_free(&self.used, net.name.bytes()) {
                    let name = Text::copy(alloc, net.name.bytes())?;
                    return Ok(name);
                }
            }
        }
        let name = self.numbered(alloc)?;
        Ok(name)
    }

    /// Adds a wire for a class of these nodes.
    pub fn add(&mut self, alloc: Global, cell: &HCell, nodes: &[Node]) -> Result<(), NoMemory>
        requires { AreUsed self.old.used (codes "n") self.old.next }
        ensures { OnOk result (HasOneMore cell.now nodes.now self.old self.new) }
    {
        let name = self.name_for(alloc, cell, nodes)?;
        self.used.add(alloc, name.bytes())?;
        let attrs = attrs_for(alloc, cell, nodes)?;
        let decl = wire_decl(alloc, attrs, name.bytes())?;
        self.decls.push(ItemV::Net(decl))?;
        self.names.push(name)?;
        Ok(())
    }
}
