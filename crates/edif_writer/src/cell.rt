ghost use Rattle.edif_writer.specs.Forms.{cell_block, cell_item_block, contents_item_block, interface_item_block, kind_form, view_block, view_item_block, with_part};
ghost use Rattle.edif_writer.specs.Layout.{Deep, Flat, all, laid, none};
ghost use Rattle.edif_writer.specs.Starts.{cell_start, contents_start, view_start};
ghost use Rattle.edif_values.specs.declared.keyword.Keyword.TheVariants as k;
ghost use Rattle.std.specs.Prelude.{◌≤◌, ◌+◌};
ghost use Rattle.nl_output.specs.Writing.{state, Puts};

use crate::forms::{OnLines, lay_each, open_block, put_close, put_line, write_line};
use crate::name::lay_property;
use crate::net::lay_designator;
use edif_values::{Cell, CellItem, CellKind, ContentsItem, InterfaceItem, View, ViewItem};
use nl_base::Seq;
use nl_io::Sink;
use nl_output::Output;

impl OnLines for InterfaceItem {
    ghost block = { interface_item_block };

    ghost depth = { 0 };

    fn lay<O: Sink>(&self, indent: usize, output: &mut Output, sink: &mut O) {
        match self {
            InterfaceItem::Port(port) => write_line(port, indent, output, sink),
            InterfaceItem::Property(property) => lay_property(property, indent, output, sink),
            InterfaceItem::Designator(text) => lay_designator(text, indent, output, sink),
            InterfaceItem::Note(note) => write_line(note, indent, output, sink),
        }
    }
}

impl OnLines for ContentsItem {
    ghost block = { contents_item_block };

    ghost depth = { 4 };

    fn lay<O: Sink>(&self, indent: usize, output: &mut Output, sink: &mut O) {
        match self {
            ContentsItem::Instance(instance) => instance.lay(indent, output, sink),
            ContentsItem::Net(net) => net.lay(indent, output, sink),
            ContentsItem::Note(note) => write_line(note, indent, output, sink),
        }
    }
}

/// The first line of the contents of a view.
pub fn lay_contents_start<O: Sink>(indent: usize, output: &mut Output, sink: &mut O)
    requires { indent ≤ 16 }
    ensures { Puts (contents_start indent)
        (state O.receipt sink.old output.old) (state O.receipt sink.new output.new) }
{
    put_line(indent, b"(contents\n", output, sink);
}

/// The contents of a view.
fn lay_contents<O: Sink>(
    items: &Seq<ContentsItem>,
    indent: usize,
    output: &mut Output,
    sink: &mut O,
)
    requires { indent + 6 ≤ 16 }
    ensures { Puts (laid indent (Deep k.Contents none (all contents_item_block items.now)))
        (state O.receipt sink.old output.old) (state O.receipt sink.new output.new) }
{
    lay_contents_start(indent, output, sink);
    lay_each(items.items(), indent + 2, output, sink);
    put_close(indent, output, sink);
}

/// The interface of a view.
fn lay_interface<O: Sink>(
    items: &Seq<InterfaceItem>,
    indent: usize,
    output: &mut Output,
    sink: &mut O,
)
    requires { indent + 2 ≤ 16 }
    ensures { Puts (laid indent (Deep k.Interface none (all interface_item_block items.now)))
        (state O.receipt sink.old output.old) (state O.receipt sink.new output.new) }
{
    put_line(indent, b"(interface\n", output, sink);
    lay_each(items.items(), indent + 2, output, sink);
    put_close(indent, output, sink);
}

impl OnLines for ViewItem {
    ghost block = { view_item_block };

    ghost depth = { 6 };

    fn lay<O: Sink>(&self, indent: usize, output: &mut Output, sink: &mut O) {
        match self {
            ViewItem::Contents(items) => lay_contents(items, indent, output, sink),
            ViewItem::Property(property) => lay_property(property.get(), indent, output, sink),
            ViewItem::Status(status) => status.lay(indent, output, sink),
            ViewItem::Note(note) => write_line(note.get(), indent, output, sink),
        }
    }
}

/// The lines of a view up to the parts behind its interface.
pub fn lay_view_start<O: Sink>(view: &View, indent: usize, output: &mut Output, sink: &mut O)
    requires { indent + 4 ≤ 16 }
    ensures { Puts (view_start indent view.now)
        (state O.receipt sink.old output.old) (state O.receipt sink.new output.new) }
{
    open_block(indent, b"(view ", &view.name, output, sink);
    put_line(indent + 2, b"(viewType NETLIST)\n", output, sink);
    lay_interface(&view.interface, indent + 2, output, sink);
}

impl OnLines for View {
    ghost block = { view_block };

    ghost depth = { 8 };

    fn lay<O: Sink>(&self, indent: usize, output: &mut Output, sink: &mut O) {
        lay_view_start(self, indent, output, sink);
        lay_each(self.items.items(), indent + 2, output, sink);
        put_close(indent, output, sink);
    }
}

impl OnLines for CellItem {
    ghost block = { cell_item_block };

    ghost depth = { 8 };

    fn lay<O: Sink>(&self, indent: usize, output: &mut Output, sink: &mut O) {
        match self {
            CellItem::View(view) => view.lay(indent, output, sink),
            CellItem::Property(property) => lay_property(property, indent, output, sink),
            CellItem::Status(status) => status.lay(indent, output, sink),
            CellItem::Note(note) => write_line(note, indent, output, sink),
        }
    }
}

/// The type of a cell.
fn lay_kind<O: Sink>(kind: CellKind, indent: usize, output: &mut Output, sink: &mut O)
    requires { indent ≤ 16 }
    ensures { Puts (laid indent (Flat (with_part k.CellType (kind_form kind))))
        (state O.receipt sink.old output.old) (state O.receipt sink.new output.new) }
{
    match kind {
        CellKind::Generic => put_line(indent, b"(cellType GENERIC)\n", output, sink),
        CellKind::Tie => put_line(indent, b"(cellType TIE)\n", output, sink),
        CellKind::Ripper => put_line(indent, b"(cellType RIPPER)\n", output, sink),
    }
}

/// The lines of a cell up to the parts behind its type.
pub fn lay_cell_start<O: Sink>(cell: &Cell, indent: usize, output: &mut Output, sink: &mut O)
    requires { indent + 2 ≤ 16 }
    ensures { Puts (cell_start indent cell.now)
        (state O.receipt sink.old output.old) (state O.receipt sink.new output.new) }
{
    open_block(indent, b"(cell ", &cell.name, output, sink);
    lay_kind(cell.kind, indent + 2, output, sink);
}

impl OnLines for Cell {
    ghost block = { cell_block };

    ghost depth = { 10 };

    fn lay<O: Sink>(&self, indent: usize, output: &mut Output, sink: &mut O) {
        lay_cell_start(self, indent, output, sink);
        lay_each(self.items.items(), indent + 2, output, sink);
        put_close(indent, output, sink);
    }
}
