// What modules show to others, as modules of their own.
ghost use Rattle.std.specs.Prelude.{◌≡◌, ◌++◌, flat_map, map, IfOk, OnOk};
ghost use Rattle.vlog_shown.specs.Interfaces.{bare_header, bare_item, bare_port, interface};
ghost use Rattle.vlog_design.specs.Tables.{modules_of};

use nl_base::{BoxedList, InlineList, NoMemory, Seq, Text};
use std::alloc::Global;
use vlog_values::{Header, ItemV, Module, PortDecl};

/// Copies of names.
fn texts_copied(alloc: Global, texts: &[Text]) -> Result<InlineList<Text>, NoMemory>
    ensures { IfOk result (λ made. made ≡ texts.now) }
{
    let mut made = InlineList::empty();
    for text in texts {
        made.push(alloc, Text::copy(alloc, text.bytes())?)?;
    }
    Ok(made)
}

/// A declaration of ports, without its attributes.
fn port_copied(alloc: Global, decl: &PortDecl) -> Result<PortDecl, NoMemory>
    ensures { IfOk result (λ made. made ≡ bare_port decl.now) }
{
    let names = texts_copied(alloc, decl.names.items())?;
    Ok(PortDecl {
        attrs: BoxedList::empty(),
        dir: decl.dir,
        kind: decl.kind,
        signed: decl.signed,
        range: decl.range,
        names,
    })
}

/// Declarations of ports, without their attributes.
fn ports_copied(alloc: Global, decls: &[PortDecl]) -> Result<Seq<PortDecl>, NoMemory>
    ensures { IfOk result (λ made. made ≡ map bare_port decls.now) }
{
    let mut made = Vec::with_capacity(alloc, decls.len())?;
    for decl in decls {
        made.push(port_copied(alloc, decl)?)?;
    }
    Ok(Seq::of(made))
}

/// A header, without attributes.
#[tactic(auto, unfolding(crate::specs::Interfaces::bare_header))]
fn header_copied(alloc: Global, header: &Header) -> Result<Header, NoMemory>
    ensures { IfOk result (λ made. made ≡ bare_header header.now) }
{
    match header {
        Header::Names(names) => {
            let made = texts_copied(alloc, names.items())?;
            Ok(Header::Names(made))
        }
        Header::Decls(decls) => {
            let made = ports_copied(alloc, decls.items())?;
            Ok(Header::Decls(made))
        }
    }
}

/// Adds the item, where it declares ports.
#[tactic(auto, unfolding(crate::specs::Interfaces::bare_item))]
fn push_port(alloc: Global, item: &ItemV, out: &mut Seq<ItemV>) -> Result<(), NoMemory>
    ensures added { OnOk result (out.new ≡ out.old ++ bare_item item.now) }
{
    match item {
        ItemV::Port(decl) => {
            let made = port_copied(alloc, decl)?;
            out.push(ItemV::Port(made))
        }
        ItemV::Net(_) => Ok(()),
        ItemV::Param(_) => Ok(()),
        ItemV::Assign(_) => Ok(()),
        ItemV::Instances(_) => Ok(()),
        ItemV::Defparam(_) => Ok(()),
    }
}

/// The declarations of ports among items, without their attributes.
fn items_copied(alloc: Global, items: &[ItemV]) -> Result<Seq<ItemV>, NoMemory>
    ensures { IfOk result (λ made. made ≡ flat_map bare_item items.now) }
{
    let mut made = Seq::empty(alloc);
    for item in items {
        push_port(alloc, item, &mut made)?;
    }
    Ok(made)
}

/// What a module shows.
fn interface_of(alloc: Global, m: &Module) -> Result<Module, NoMemory>
    ensures { IfOk result (λ made. made ≡ interface m.now) }
{
    let name = Text::copy(alloc, m.name.bytes())?;
    let header = header_copied(alloc, &m.header)?;
    let items = items_copied(alloc, m.items.items())?;
    Ok(Module {
        attrs: BoxedList::empty(),
        name,
        implicit: m.implicit,
        params: Seq::empty(alloc),
        header,
        items,
    })
}

/// What the modules show, in their order.
pub fn interfaces_of(alloc: Global, modules: &[&Module]) -> Result<Seq<Module>, NoMemory>
    ensures { IfOk result (λ made. made ≡ map interface (modules_of modules.now)) }
{
    let mut made = Vec::with_capacity(alloc, modules.len())?;
    for m in modules {
        made.push(interface_of(alloc, *m)?)?;
    }
    Ok(Seq::of(made))
}
