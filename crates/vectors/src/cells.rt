// The cells of generated files.
ghost use Rattle.std.specs.Prelude.{◌≡◌, ◌∷◌, ◌+◌, ◌<◌, ◌^◌, [], IfOk, IsTrue};
ghost use Rattle.nl_base.specs.Identifiers.{is_short_identifier};
ghost use Rattle.edif_values.specs.declared.library.LibraryItem.TheVariants as library_items;
ghost use Rattle.edif_values.specs.declared.view.ContentsItem.TheVariants as contents_items;
ghost use Rattle.edif_values.specs.declared.view.InterfaceItem.TheVariants as interface_items;
ghost use Rattle.edif_values.specs.declared.view.ViewItem.TheVariants as view_items;
ghost use Rattle.vectors.specs.Cells as spec;

use crate::idents::{cell_ident, ident, name};
use edif_values::{
    Cell, CellItem, CellKind, ContentsItem, Instance, InterfaceItem, LibraryItem, NameDef, Net,
    Port, PortItem, PortName, PortRef, View, ViewItem,
};
use nl_base::{Dir, Ident, InlineList, NoMemory, OptionalIdent, OptionalInt, OptionalText, Seq};
use std::alloc::Global;

/// A list of one item.
fn only<T: Drop>(alloc: Global, item: T) -> Result<Seq<T>, NoMemory>
    ensures { IfOk result (λ items. items ≡ item ∷ []) }
{
    let mut items = Seq::empty(alloc);
    items.push(item)?;
    Ok(items)
}

/// A scalar port.
fn port(alloc: Global, bytes: &[u8], dir: Dir) -> Result<InterfaceItem, NoMemory>
    requires { IsTrue (is_short_identifier bytes.now) }
    ensures { IfOk result (λ item. item ≡ interface_items.Port (spec.port bytes.now dir)) }
{
    let name = name(alloc, bytes)?;
    let items = InlineList::one(PortItem::Direction(dir));
    Ok(InterfaceItem::Port(Port {
        name: PortName::Single(name),
        items,
    }))
}

/// The ports `i` and `o`.
fn interface(alloc: Global) -> Result<Seq<InterfaceItem>, NoMemory>
    ensures { IfOk result (λ items. items ≡ (spec.view []).interface) }
{
    let input = port(alloc, b"i", Dir::Input)?;
    let output = port(alloc, b"o", Dir::Output)?;
    let mut items = Seq::empty(alloc);
    items.push(input)?;
    items.push(output)?;
    Ok(items)
}

/// An instance of the cell of this number.
fn instance(alloc: Global, bytes: &[u8], below: u32) -> Result<ContentsItem, NoMemory>
    requires { IsTrue (is_short_identifier bytes.now) }
    ensures { IfOk result (λ item. item
        ≡ contents_items.Instance (spec.instance bytes.now below)) }
{
    let name = name(alloc, bytes)?;
    let view = ident(alloc, b"v")?;
    let cell = cell_ident(alloc, below)?;
    Ok(ContentsItem::Instance(Instance {
        name,
        view,
        cell,
        library: OptionalIdent::none(),
        items: Seq::empty(alloc),
    }))
}

/// A port of the cell.
fn own(alloc: Global, bytes: &[u8]) -> Result<PortRef, NoMemory>
    requires { IsTrue (is_short_identifier bytes.now) }
    ensures { IfOk result (λ reference. reference ≡ spec.own bytes.now) }
{
    let port = ident(alloc, bytes)?;
    Ok(PortRef {
        port,
        member: OptionalInt::of(None),
        instance: OptionalIdent::none(),
    })
}

/// A port of an instance.
fn pin(alloc: Global, bytes: &[u8], of_instance: &[u8]) -> Result<PortRef, NoMemory>
    requires port { IsTrue (is_short_identifier bytes.now) }
    requires instance { IsTrue (is_short_identifier of_instance.now) }
    ensures { IfOk result (λ reference. reference ≡ spec.pin bytes.now of_instance.now) }
{
    let port = ident(alloc, bytes)?;
    let instance = ident(alloc, of_instance)?;
    Ok(PortRef {
        port,
        member: OptionalInt::of(None),
        instance: OptionalIdent::some(instance),
    })
}

/// A net that joins two ports.
fn net(alloc: Global, bytes: &[u8], one: PortRef, other: PortRef) -> Result<ContentsItem, NoMemory>
    requires { IsTrue (is_short_identifier bytes.now) }
    ensures { IfOk result (λ item. item ≡ contents_items.Net (spec.net bytes.now one other)) }
{
    let name = name(alloc, bytes)?;
    let mut joined = Seq::empty(alloc);
    joined.push(one)?;
    joined.push(other)?;
    Ok(ContentsItem::Net(Net {
        name,
        joined,
        items: Seq::empty(alloc),
    }))
}

/// The net from the port `i` to the first instance.
fn first_net(alloc: Global, one: &[u8]) -> Result<ContentsItem, NoMemory>
    requires { IsTrue (is_short_identifier one.now) }
    ensures { IfOk result (λ item. item ≡ contents_items.Net (spec.first_net one.now)) }
{
    let from = own(alloc, b"i")?;
    let to = pin(alloc, b"i", one)?;
    let made = net(alloc, b"i", from, to)?;
    Ok(made)
}

/// The net from one instance to the other.
fn middle_net(alloc: Global, one: &[u8], other: &[u8]) -> Result<ContentsItem, NoMemory>
    requires one { IsTrue (is_short_identifier one.now) }
    requires other { IsTrue (is_short_identifier other.now) }
    ensures { IfOk result (λ item. item
        ≡ contents_items.Net (spec.middle_net one.now other.now)) }
{
    let from = pin(alloc, b"o", one)?;
    let to = pin(alloc, b"i", other)?;
    let made = net(alloc, b"m", from, to)?;
    Ok(made)
}

/// The net from the last instance to the port `o`.
fn last_net(alloc: Global, other: &[u8]) -> Result<ContentsItem, NoMemory>
    requires { IsTrue (is_short_identifier other.now) }
    ensures { IfOk result (λ item. item ≡ contents_items.Net (spec.last_net other.now)) }
{
    let from = pin(alloc, b"o", other)?;
    let to = own(alloc, b"o")?;
    let made = net(alloc, b"o", from, to)?;
    Ok(made)
}

/// The contents with two instances of the cell of this number, in which the signal goes through the one instance and then the other.
fn contents(
    alloc: Global,
    below: u32,
    one: &[u8],
    other: &[u8],
) -> Result<Seq<ContentsItem>, NoMemory>
    requires one { IsTrue (is_short_identifier one.now) }
    requires other { IsTrue (is_short_identifier other.now) }
    ensures { IfOk result (λ items. items ≡ spec.contents below one.now other.now) }
{
    let mut items = Seq::empty(alloc);
    items.push(instance(alloc, b"a", below)?)?;
    items.push(instance(alloc, b"b", below)?)?;
    items.push(first_net(alloc, one)?)?;
    items.push(middle_net(alloc, one, other)?)?;
    items.push(last_net(alloc, other)?)?;
    Ok(items)
}

/// The contents above the cell of this number.
fn contents_of(alloc: Global, below: u32, is_swapped: bool) -> Result<Seq<ContentsItem>, NoMemory>
    ensures { IfOk result (λ items. items ≡ spec.contents_of is_swapped below) }
{
    if is_swapped {
        let items = contents(alloc, below, b"b", b"a")?;
        return Ok(items);
    }
    let items = contents(alloc, below, b"a", b"b")?;
    Ok(items)
}

/// A cell of this identifier with these parts of its view.
fn cell(alloc: Global, ident: Ident, items: InlineList<ViewItem>) -> Result<LibraryItem, NoMemory>
    ensures { IfOk result (λ item. item ≡ library_items.Cell (spec.cell_with ident items)) }
{
    let name = name(alloc, b"v")?;
    let interface = interface(alloc)?;
    let view = View {
        name,
        interface,
        items,
    };
    let items = only(alloc, CellItem::View(view))?;
    Ok(LibraryItem::Cell(Cell {
        name: NameDef {
            ident,
            text: OptionalText::none(),
        },
        kind: CellKind::Generic,
        items,
    }))
}

/// The first cell.
pub(crate) fn first_cell(alloc: Global) -> Result<LibraryItem, NoMemory>
    ensures { IfOk result (λ item. item
        ≡ library_items.Cell (spec.cell_with (spec.cell_ident 0) [])) }
{
    let ident = cell_ident(alloc, 0)?;
    let made = cell(alloc, ident, InlineList::empty())?;
    Ok(made)
}

/// The cell above that of this number.
pub(crate) fn cell_above(
    alloc: Global,
    below: u32,
    is_swapped: bool,
) -> Result<LibraryItem, NoMemory>
    requires { below + 1 < 2 ^ 32 }
    ensures { IfOk result (λ item. item ≡ library_items.Cell (spec.cell_with
        (spec.cell_ident (below + 1)) (view_items.Contents (spec.contents_of is_swapped below) ∷ []))) }
{
    let inner = contents_of(alloc, below, is_swapped)?;
    let items = InlineList::one(ViewItem::Contents(inner));
    let ident = cell_ident(alloc, below + 1)?;
    let made = cell(alloc, ident, items)?;
    Ok(made)
}
