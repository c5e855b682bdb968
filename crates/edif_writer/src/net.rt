ghost use Rattle.edif_writer.specs.Forms.{cell_ref_form, designator_form, dir_form, instance_block, instance_item_block, instance_ref_forms, member_form, net_block, net_item_block, port_form, port_item_form, port_ref_block, port_ref_form, view_ref_form, with_part};
ghost use Rattle.edif_writer.specs.Layout.{Flat, inline, laid, spaced};
ghost use Rattle.std.specs.Prelude.{◌≤◌, ◌+◌, ◌∷◌};
ghost use Rattle.edif_values.specs.declared.keyword.Keyword.TheVariants as k;
ghost use Rattle.nl_output.specs.Writing.{state, Puts};

use crate::forms::{
    OnLine, OnLines, lay_each, open_block, open_port_ref, open_view_ref, put_close, put_indent,
    put_line, write_each, write_line,
};
use crate::name::lay_property;
use edif_values::{Instance, InstanceItem, Net, NetItem, Port, PortItem, PortRef};
use nl_base::{Dir, Ident, Int, OptionalIdent, Text};
use nl_io::Sink;
use nl_output::Output;

/// A direction.
fn write_direction<O: Sink>(dir: Dir, output: &mut Output, sink: &mut O)
    ensures { Puts (inline (with_part k.Direction (dir_form dir)))
        (state O.receipt sink.old output.old) (state O.receipt sink.new output.new) }
{
    match dir {
        Dir::Input => output.put(b"(direction INPUT)", sink),
        Dir::Output => output.put(b"(direction OUTPUT)", sink),
        Dir::Inout => output.put(b"(direction INOUT)", sink),
    }
}

/// A designator.
pub(crate) fn write_designator<O: Sink>(text: &Text, output: &mut Output, sink: &mut O)
    ensures { Puts (inline (designator_form text.now))
        (state O.receipt sink.old output.old) (state O.receipt sink.new output.new) }
{
    output.put(b"(designator ", sink);
    text.write(output, sink);
    output.put(b")", sink);
}

impl OnLine for PortItem {
    ghost form = { port_item_form };

    fn write<O: Sink>(&self, output: &mut Output, sink: &mut O) {
        match self {
            PortItem::Direction(dir) => write_direction(*dir, output, sink),
            PortItem::Property(property) => property.get().write(output, sink),
            PortItem::Designator(text) => write_designator(text, output, sink),
            PortItem::Note(note) => note.get().write(output, sink),
        }
    }
}

impl OnLine for Port {
    ghost form = { port_form };

    fn write<O: Sink>(&self, output: &mut Output, sink: &mut O) {
        output.put(b"(port ", sink);
        self.name.write(output, sink);
        write_each(self.items.items(), output, sink);
        output.put(b")", sink);
    }
}

/// The cell of which an instance is, of a library if one is named, at the end of its line.
#[inline(always)]
fn end_view_ref<O: Sink>(cell: &Ident, library: &OptionalIdent, output: &mut Output, sink: &mut O)
    ensures { Puts (λ rest. 32 ∷ inline (cell_ref_form cell.now library.now) (41 ∷ 10 ∷ rest))
        (state O.receipt sink.old output.old) (state O.receipt sink.new output.new) }
{
    match library.bytes() {
        None => {
            output.put(b" (cellRef ", sink);
            cell.write(output, sink);
            output.put(b"))\n", sink);
        }
        Some(library) => {
            output.put(b" (cellRef ", sink);
            cell.write(output, sink);
            output.put(b" (libraryRef ", sink);
            output.put(library, sink);
            output.put(b")))\n", sink);
        }
    }
}

impl OnLines for InstanceItem {
    ghost block = { instance_item_block };

    ghost depth = { 0 };

    fn lay<O: Sink>(&self, indent: usize, output: &mut Output, sink: &mut O) {
        match self {
            InstanceItem::Property(property) => lay_property(property, indent, output, sink),
            InstanceItem::Designator(text) => lay_designator(text, indent, output, sink),
            InstanceItem::Note(note) => write_line(note, indent, output, sink),
        }
    }
}

/// A designator on a line of its own.
pub(crate) fn lay_designator<O: Sink>(text: &Text, indent: usize, output: &mut Output, sink: &mut O)
    requires { indent ≤ 16 }
    ensures { Puts (laid indent (Flat (designator_form text.now)))
        (state O.receipt sink.old output.old) (state O.receipt sink.new output.new) }
{
    put_indent(indent, output, sink);
    write_designator(text, output, sink);
    output.put(b"\n", sink);
}

/// The view that an instance is of, on a line of its own.
#[inline(always)]
fn lay_view_ref<O: Sink>(instance: &Instance, indent: usize, output: &mut Output, sink: &mut O)
    requires { indent ≤ 16 }
    ensures { Puts (laid indent (Flat (view_ref_form instance.now)))
        (state O.receipt sink.old output.old) (state O.receipt sink.new output.new) }
{
    open_view_ref(indent, output, sink);
    instance.view.write(output, sink);
    end_view_ref(&instance.cell, &instance.library, output, sink);
}

impl OnLines for Instance {
    ghost block = { instance_block };

    ghost depth = { 2 };

    fn lay<O: Sink>(&self, indent: usize, output: &mut Output, sink: &mut O) {
        open_block(indent, b"(instance ", &self.name, output, sink);
        lay_view_ref(self, indent + 2, output, sink);
        lay_each(self.items.items(), indent + 2, output, sink);
        put_close(indent, output, sink);
    }
}

/// A port, or a member of an array of ports.
#[inline(always)]
fn write_member<O: Sink>(port: &Ident, member: Option<Int>, output: &mut Output, sink: &mut O)
    ensures { Puts (inline (member_form port.now member))
        (state O.receipt sink.old output.old) (state O.receipt sink.new output.new) }
{
    match member {
        None => port.write(output, sink),
        Some(index) => {
            output.put(b"(member ", sink);
            port.write(output, sink);
            output.put(b" ", sink);
            index.write(output, sink);
            output.put(b")", sink);
        }
    }
}

/// A reference to an instance, after a blank, if one is named.
fn write_instance_ref<O: Sink>(instance: &OptionalIdent, output: &mut Output, sink: &mut O)
    ensures { Puts (spaced (instance_ref_forms instance.now))
        (state O.receipt sink.old output.old) (state O.receipt sink.new output.new) }
{
    if let Some(name) = instance.bytes() {
        output.put(b" (instanceRef ", sink);
        output.put(name, sink);
        output.put(b")", sink);
    }
}

/// A reference to an instance, after a blank, if one is named, at the end of the line of a reference to a port.
#[inline(always)]
fn end_port_ref<O: Sink>(instance: &OptionalIdent, output: &mut Output, sink: &mut O)
    ensures { Puts (λ rest. spaced (instance_ref_forms instance.now) (41 ∷ 10 ∷ rest))
        (state O.receipt sink.old output.old) (state O.receipt sink.new output.new) }
{
    match instance.bytes() {
        None => output.put(b")\n", sink),
        Some(name) => {
            output.put(b" (instanceRef ", sink);
            output.put(name, sink);
            output.put(b"))\n", sink);
        }
    }
}

impl OnLine for PortRef {
    ghost form = { port_ref_form };

    fn write<O: Sink>(&self, output: &mut Output, sink: &mut O) {
        output.put(b"(portRef ", sink);
        write_member(&self.port, self.member.get(), output, sink);
        write_instance_ref(&self.instance, output, sink);
        output.put(b")", sink);
    }
}

impl OnLines for PortRef {
    ghost block = { port_ref_block };

    ghost depth = { 0 };

    fn lay<O: Sink>(&self, indent: usize, output: &mut Output, sink: &mut O) {
        open_port_ref(indent, output, sink);
        write_member(&self.port, self.member.get(), output, sink);
        end_port_ref(&self.instance, output, sink);
    }
}

impl OnLines for NetItem {
    ghost block = { net_item_block };

    ghost depth = { 0 };

    fn lay<O: Sink>(&self, indent: usize, output: &mut Output, sink: &mut O) {
        match self {
            NetItem::Property(property) => lay_property(property, indent, output, sink),
            NetItem::Note(note) => write_line(note, indent, output, sink),
        }
    }
}

impl OnLines for Net {
    ghost block = { net_block };

    ghost depth = { 4 };

    fn lay<O: Sink>(&self, indent: usize, output: &mut Output, sink: &mut O) {
        open_block(indent, b"(net ", &self.name, output, sink);
        put_line(indent + 2, b"(joined\n", output, sink);
        lay_each(self.joined.items(), indent + 4, output, sink);
        put_close(indent + 2, output, sink);
        lay_each(self.items.items(), indent + 2, output, sink);
        put_close(indent, output, sink);
    }
}
