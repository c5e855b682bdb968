ghost use Rattle.edif_values.specs.Keywords.{spelling};
ghost use Rattle.edif_writer.specs.Forms.{library_keyword, name_form, design_form, design_item_form, edif_text, file_block, file_item_block, level_form, library_block, library_item_block, map_form, scale_form, technology_form, version_form};
ghost use Rattle.edif_writer.specs.Layout.{Flat, blanks, inline, laid};
ghost use Rattle.edif_writer.specs.Starts.{file_start, library_start};
ghost use Rattle.std.specs.Prelude.{◌≤◌, ◌+◌, ◌++◌, ◌∷◌};
ghost use Rattle.nl_output.specs.Writing.{state, Puts, Writes};

use crate::forms::{
    OnLine, OnLines, lay_each, open_block, put_close, put_indent, put_line, write_each, write_line,
};
use edif_values::{Design, DesignItem, EdifFile, FileItem, Library, LibraryItem, Scale};
use nl_io::{Failed, Sink};
use nl_output::Output;

impl OnLine for Scale {
    ghost form = { scale_form };

    fn write<O: Sink>(&self, output: &mut Output, sink: &mut O) {
        output.put(b"(scale ", sink);
        self.left.write(output, sink);
        output.put(b" ", sink);
        self.right.write(output, sink);
        output.put(b" (unit ", sink);
        self.unit.write(output, sink);
        output.put(b"))", sink);
    }
}

/// The technology of a library, on a line of its own.
fn lay_technology<O: Sink>(library: &Library, indent: usize, output: &mut Output, sink: &mut O)
    requires { indent ≤ 16 }
    ensures { Puts (laid indent (Flat (technology_form library.now)))
        (state O.receipt sink.old output.old) (state O.receipt sink.new output.new) }
{
    put_indent(indent, output, sink);
    output.put(b"(technology (numberDefinition", sink);
    write_each(library.scales.items(), output, sink);
    output.put(b")", sink);
    write_each(library.notes.items(), output, sink);
    output.put(b")\n", sink);
}

/// The level of an EDIF text and of a library.
fn lay_level<O: Sink>(indent: usize, output: &mut Output, sink: &mut O)
    requires { indent ≤ 16 }
    ensures { Puts (laid indent (Flat level_form))
        (state O.receipt sink.old output.old) (state O.receipt sink.new output.new) }
{
    put_line(indent, b"(edifLevel 0)\n", output, sink);
}

impl OnLines for LibraryItem {
    ghost block = { library_item_block };

    ghost depth = { 10 };

    fn lay<O: Sink>(&self, indent: usize, output: &mut Output, sink: &mut O) {
        match self {
            LibraryItem::Cell(cell) => cell.lay(indent, output, sink),
            LibraryItem::Status(status) => status.lay(indent, output, sink),
            LibraryItem::Note(note) => write_line(note, indent, output, sink),
        }
    }
}

/// The first line of a library.
fn open_library<O: Sink>(library: &Library, indent: usize, output: &mut Output, sink: &mut O)
    requires { indent ≤ 16 }
    ensures { Puts (λ rest. blanks indent
        ++ (40 ∷ (spelling (library_keyword library.now.external)
        ++ (32 ∷ inline (name_form library.now.name) (10 ∷ rest)))))
        (state O.receipt sink.old output.old) (state O.receipt sink.new output.new) }
{
    if library.external {
        open_block(indent, b"(external ", &library.name, output, sink);
        return;
    }
    open_block(indent, b"(library ", &library.name, output, sink);
}

/// The lines of a library up to its parts.
pub fn lay_library_start<O: Sink>(
    library: &Library,
    indent: usize,
    output: &mut Output,
    sink: &mut O,
)
    requires { indent + 2 ≤ 16 }
    ensures { Puts (library_start indent library.now)
        (state O.receipt sink.old output.old) (state O.receipt sink.new output.new) }
{
    open_library(library, indent, output, sink);
    lay_level(indent + 2, output, sink);
    lay_technology(library, indent + 2, output, sink);
}

impl OnLines for Library {
    ghost block = { library_block };

    ghost depth = { 12 };

    fn lay<O: Sink>(&self, indent: usize, output: &mut Output, sink: &mut O) {
        lay_library_start(self, indent, output, sink);
        lay_each(self.items.items(), indent + 2, output, sink);
        put_close(indent, output, sink);
    }
}

impl OnLine for DesignItem {
    ghost form = { design_item_form };

    fn write<O: Sink>(&self, output: &mut Output, sink: &mut O) {
        match self {
            DesignItem::Property(property) => property.write(output, sink),
            DesignItem::Status(status) => status.write(output, sink),
            DesignItem::Note(note) => note.write(output, sink),
        }
    }
}

impl OnLine for Design {
    ghost form = { design_form };

    fn write<O: Sink>(&self, output: &mut Output, sink: &mut O) {
        output.put(b"(design ", sink);
        self.name.write(output, sink);
        output.put(b" (cellRef ", sink);
        self.cell.write(output, sink);
        output.put(b" (libraryRef ", sink);
        self.library.write(output, sink);
        output.put(b"))", sink);
        write_each(self.items.items(), output, sink);
        output.put(b")", sink);
    }
}

impl OnLines for FileItem {
    ghost block = { file_item_block };

    ghost depth = { 12 };

    fn lay<O: Sink>(&self, indent: usize, output: &mut Output, sink: &mut O) {
        match self {
            FileItem::Library(library) => library.lay(indent, output, sink),
            FileItem::Design(design) => write_line(design, indent, output, sink),
            FileItem::Status(status) => status.lay(indent, output, sink),
            FileItem::Note(note) => write_line(note, indent, output, sink),
        }
    }
}

/// The version, the level and the keyword map.
fn lay_header<O: Sink>(indent: usize, output: &mut Output, sink: &mut O)
    requires { indent ≤ 16 }
    ensures { Puts (λ rest. laid indent (Flat version_form)
        (laid indent (Flat level_form) (laid indent (Flat map_form) rest)))
        (state O.receipt sink.old output.old) (state O.receipt sink.new output.new) }
{
    put_line(indent, b"(edifVersion 2 0 0)\n", output, sink);
    lay_level(indent, output, sink);
    put_line(indent, b"(keywordMap (keywordLevel 0))\n", output, sink);
}

/// The lines of a file up to its parts.
pub fn lay_file_start<O: Sink>(file: &EdifFile, indent: usize, output: &mut Output, sink: &mut O)
    requires { indent + 2 ≤ 16 }
    ensures { Puts (file_start indent file.now)
        (state O.receipt sink.old output.old) (state O.receipt sink.new output.new) }
{
    open_block(indent, b"(edif ", &file.name, output, sink);
    lay_header(indent + 2, output, sink);
}

impl OnLines for EdifFile {
    ghost block = { file_block };

    ghost depth = { 14 };

    fn lay<O: Sink>(&self, indent: usize, output: &mut Output, sink: &mut O) {
        lay_file_start(self, indent, output, sink);
        lay_each(self.items.items(), indent + 2, output, sink);
        put_close(indent, output, sink);
    }
}

/// Writes the text of a file: it takes no memory, and answers `Ok` exactly where the sink took the whole text.
pub fn write_edif<O: Sink>(file: &EdifFile, sink: &mut O) -> Result<(), Failed>
    ensures { Writes O.receipt sink.old sink.new (edif_text file.now) result }
{
    let mut output = Output::new();
    file.lay(0, &mut output, sink);
    let result = output.finish(sink);
    result
}
