// The nets of a cell, one for each bit of its wires.
ghost use Rattle.std.specs.Prelude.{◌≡◌, ◌<◌, ◌++◌, ◌∷◌, [], flat_map, option_to_list, slice_get, IfOk, OnOk};
ghost use Rattle.std.specs.Fmt.{signed_decimal};
ghost use Rattle.nl_base.specs.Ranges.{index_at, range_bits};
ghost use Rattle.vlog_design.specs.Design.{attr_props, module_nets, wire_nets};
ghost use Rattle.vlog_design.specs.Names.{net_decl, signals};
ghost use Rattle.vlog_values.specs.declared.module.Module.{Module as ModuleValue};
ghost use Rattle.vlog_cells.specs.Parts.{declared_part};
ghost use Rattle.vlog_cells.specs.Nets.{bit_nets, is_late, late_nets, names_port, wire_of, wires_by, wires_in};

use crate::properties::attrs_made;
use itoa::Buffer;
use net_hier::HNet;
use nl_base::{NoMemory, Range, Seq, Text};
use std::alloc::Global;
use vlog_design::signals::{SignalAt, Slot};
use vlog_design::table::Table;
use vlog_design::widths::range_width;
use vlog_values::{Attr, ItemV, Module, NetDecl};

/// A net that is no port.
#[derive(Clone, Copy)]
pub struct WireOf<'a> {
    pub name: &'a [u8],
    pub range: Option<Range>,
    pub attrs: &'a [Attr],
}

/// The name of a bit: the front, which is the name and a bracket, and then the index and a bracket.
fn bit_name(alloc: Global, range: Range, bit: u32, front: &mut Vec<u8>) -> Result<Text, NoMemory>
    requires { bit < range_bits range }
    ensures name { IfOk result (λ text. text
        ≡ front.old.items ++ signed_decimal (index_at range bit) ++ 93 ∷ []) }
    ensures kept { OnOk result (front.new.items ≡ front.old.items) }
{
    let mut buffer = Buffer::new();
    let length = front.len();
    front.extend_from_slice(buffer.format(range.index(bit)).as_bytes())?;
    front.push(b']')?;
    let name = Text::copy(alloc, front.as_slice())?;
    front.truncate(length);
    Ok(name)
}

/// Adds the net of this name with these attributes.
fn push_net(alloc: Global, name: Text, attrs: &[Attr], made: &mut Vec<HNet>) -> Result<(), NoMemory>
    ensures added { OnOk result (made.new.items
        ≡ made.old.items ++ record { name = name; props = attr_props attrs.now } ∷ []) }
{
    let props = attrs_made(alloc, attrs)?;
    made.push(HNet { name, props })?;
    Ok(())
}

/// Adds the nets of a wire with this range. The front of their names is made in `front`, whatever stands there.
fn add_bits(
    alloc: Global,
    wire: &WireOf,
    range: Range,
    front: &mut Vec<u8>,
    made: &mut Vec<HNet>,
) -> Result<(), NoMemory>
    ensures added { OnOk result (made.new.items
        ≡ made.old.items ++ bit_nets wire.now range (range_bits range)) }
{
    front.clear();
    front.extend_from_slice(wire.name)?;
    front.push(b'[')?;
    for bit in 0..range.bits() as u32 {
        let name = bit_name(alloc, range, bit, front)?;
        push_net(alloc, name, wire.attrs, made)?;
    }
    Ok(())
}

/// Adds the net of a wire without a range.
fn add_scalar(alloc: Global, wire: &WireOf, made: &mut Vec<HNet>) -> Result<(), NoMemory>
    ensures added { OnOk result (made.new.items
        ≡ made.old.items ++ record {
          name = wire.now.name.now;
          props = attr_props wire.now.attrs.now;
        } ∷ []) }
{
    let name = Text::copy(alloc, wire.name)?;
    push_net(alloc, name, wire.attrs, made)
}

/// Adds the nets of a wire.
fn add_wire(
    alloc: Global,
    wire: &WireOf,
    front: &mut Vec<u8>,
    made: &mut Vec<HNet>,
) -> Result<(), NoMemory>
    ensures added { OnOk result (made.new.items ≡ made.old.items ++ wire_nets (wire_of wire.now)) }
{
    match wire.range {
        None => add_scalar(alloc, wire, made),
        Some(range) => add_bits(alloc, wire, range, front, made),
    }
}

/// Whether the name is that of a port. The place of the name in the table is tried first.
#[tactic(auto, unfolding(crate::specs::Nets::names_port))]
pub(crate) fn names_port(table: &Table, place: usize, name: &[u8]) -> bool
    ensures { result ≡ names_port table.now name.now }
{
    match table.find_at(place, name) {
        None => false,
        Some(slot) => match slot.place {
            SignalAt::AtPort(_) => true,
            SignalAt::AtNet(_) => false,
        },
    }
}

/// Whether the name of this number in the table is that of a net.
fn is_net(table: &Table, number: usize) -> bool {
    match table.entry(number) {
        None => false,
        Some((_name, slot)) => is_late(0, slot.place),
    }
}

/// The number of the first net in the table, behind the ports, which is where the first net of the text mostly stands.
pub(crate) fn first_net(table: &Table) -> usize {
    for number in 0..table.len() {
        if is_net(table, number) {
            return number;
        }
    }
    0
}

/// How many nets an item declares.
pub(crate) fn declared_count(item: &ItemV) -> usize {
    match item {
        ItemV::Net(decl) => decl.names.len(),
        ItemV::Port(_) => 0,
        ItemV::Param(_) => 0,
        ItemV::Assign(_) => 0,
        ItemV::Instances(_) => 0,
        ItemV::Defparam(_) => 0,
    }
}

/// Adds the nets of a declaration that are no ports. The names mostly stand in the table from this place on.
fn add_decl(
    alloc: Global,
    table: &Table,
    place: usize,
    decl: &NetDecl,
    front: &mut Vec<u8>,
    made: &mut Vec<HNet>,
) -> Result<(), NoMemory>
    ensures added { OnOk result (made.new.items
        ≡ made.old.items ++ flat_map wire_nets (wires_by table.now decl.now)) }
{
    let mut at = place;
    for name in decl.names.items() {
        let here = at;
        at = at.saturating_add(1);
        if !names_port(table, here, name.bytes()) {
            let wire = WireOf {
                name: name.bytes(),
                range: decl.range,
                attrs: decl.attrs.items(),
            };
            add_wire(alloc, &wire, front, made)?;
        }
    }
    Ok(())
}

/// Adds the nets that an item declares.
fn add_item(
    alloc: Global,
    table: &Table,
    place: usize,
    item: &ItemV,
    front: &mut Vec<u8>,
    made: &mut Vec<HNet>,
) -> Result<(), NoMemory>
    ensures added { OnOk result (made.new.items
        ≡ made.old.items ++ flat_map wire_nets (wires_in table.now (net_decl item.now))) }
{
    match item {
        ItemV::Net(decl) => {
            add_decl(alloc, table, place, decl, front, made)?;
            Ok(())
        }
        ItemV::Port(_) => Ok(()),
        ItemV::Param(_) => Ok(()),
        ItemV::Assign(_) => Ok(()),
        ItemV::Instances(_) => Ok(()),
        ItemV::Defparam(_) => Ok(()),
    }
}

/// Adds the nets that items declare.
fn add_items(
    alloc: Global,
    table: &Table,
    items: &[ItemV],
    front: &mut Vec<u8>,
    made: &mut Vec<HNet>,
) -> Result<(), NoMemory>
    ensures added { OnOk result (made.new.items
        ≡ made.old.items ++ flat_map wire_nets (wires_in table.now (flat_map net_decl items.now))) }
{
    let mut place = first_net(table);
    for item in items {
        add_item(alloc, table, place, item, front, made)?;
        place = place.saturating_add(declared_count(item));
    }
    Ok(())
}

/// Whether this is a net of the given number or a later one.
fn is_late(from: u64, place: SignalAt) -> bool
    ensures { result ≡ is_late from place }
{
    match place {
        SignalAt::AtPort(_) => false,
        SignalAt::AtNet(first) => from <= first,
    }
}

/// Adds the net of this entry of the table, where it is a net of the given number or a later one.
fn add_late(
    alloc: Global,
    from: u64,
    table: &Table,
    number: usize,
    made: &mut Vec<HNet>,
) -> Result<(), NoMemory>
    ensures added { OnOk result (made.new.items
        ≡ made.old.items ++ late_nets from (option_to_list (slice_get table.now number))) }
{
    let Some((name, slot)) = table.entry(number) else {
        return Ok(());
    };
    if is_late(from, slot.place) {
        let name = Text::copy(alloc, name)?;
        push_net(alloc, name, &[], made)?;
    }
    Ok(())
}

/// Adds the nets of the given number and later ones, each of one bit and without a declaration.
fn add_implicit(
    alloc: Global,
    from: u64,
    table: &Table,
    made: &mut Vec<HNet>,
) -> Result<(), NoMemory>
    ensures added { OnOk result (made.new.items ≡ made.old.items ++ late_nets from table.now) }
{
    for number in 0..table.len() {
        add_late(alloc, from, table, number, made)?;
    }
    Ok(())
}

/// How many nets this entry of a table and those before it make.
fn nets_up_to(slot: Slot) -> u64 {
    match slot.place {
        SignalAt::AtPort(_) => 0,
        SignalAt::AtNet(first) => first.saturating_add(range_width(slot.range)),
    }
}

/// How many nets a table has, by its last entry; the nets stand behind the ports.
fn net_count(table: &Table) -> u64 {
    match table.entry(table.len().saturating_sub(1)) {
        None => 0,
        Some((_name, slot)) => nets_up_to(slot),
    }
}

/// The nets of a module, by what it declares and the table of its names.
pub(crate) fn nets_made(
    alloc: Global,
    declared: &Module,
    table: &Table,
) -> Result<Seq<HNet>, NoMemory>
    ensures { IfOk result (λ made. (m : ModuleValue) → declared.now ≡ declared_part m
        → table.now ≡ signals m → made ≡ module_nets m) }
{
    let mut made = Vec::with_capacity(alloc, net_count(table) as usize)?;
    let mut front = Vec::new(alloc);
    add_items(alloc, table, declared.items.items(), &mut front, &mut made)?;
    let from = made.len() as u64;
    add_implicit(alloc, from, table, &mut made)?;
    Ok(Seq::of(made))
}
