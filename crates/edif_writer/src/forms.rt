ghost use Rattle.std.specs.Prelude.{codes, ◌∷◌, ◌++◌, ◌+◌, ◌≤◌, ℕ};
ghost use Rattle.edif_writer.specs.Forms.{name_form};
ghost use Rattle.edif_writer.specs.Layout.{Form, Block, Flat, all, blanks, each, inline, laid, lines, spaced};
ghost use Rattle.nl_output.specs.Writing.{state, Puts};

use crate::name::write_name_line;
use edif_values::NameDef;
use nl_io::Sink;
use nl_output::Output;

/// The greatest indent.
const BLANKS: [u8; 16] = [b' '; 16];

/// The line that ends a block, at the greatest indent.
const CLOSE: &[u8] = b"                )\n";

/// How the line of a reference to a port begins, at the greatest indent.
const PORT_REF: &[u8] = b"                (portRef ";

/// How the line of a property begins, at the greatest indent.
const PROPERTY: &[u8] = b"                (property ";

/// How the line of the view of an instance begins, at the greatest indent.
const VIEW_REF: &[u8] = b"                (viewRef ";

/// What is written on one line: a form, or a word, an integer or a string within one.
pub trait OnLine {
    /// The form of a value.
    ghost form: { Self → Form };

    /// Puts the text of the form.
    fn write<O: Sink>(&self, output: &mut Output, sink: &mut O)
        ensures { Puts (inline (form self.now))
            (state O.receipt sink.old output.old) (state O.receipt sink.new output.new) };
}

/// What stands on lines of its own.
pub trait OnLines {
    /// The lines of a value.
    ghost block: { Self → Block };

    /// By how many blanks the lines within may be indented further.
    ghost depth: { ℕ };

    /// Puts the lines, at an indent of so many blanks.
    fn lay<O: Sink>(&self, indent: usize, output: &mut Output, sink: &mut O)
        requires { indent + depth ≤ 16 }
        ensures { Puts (laid indent (block self.now))
            (state O.receipt sink.old output.old) (state O.receipt sink.new output.new) };
}

// What begins or ends a line is always inlined: its indent and its bytes are then of a known number.

/// An indent of so many blanks.
#[inline(always)]
pub(crate) fn put_indent<O: Sink>(indent: usize, output: &mut Output, sink: &mut O)
    requires { indent ≤ 16 }
    ensures { Puts (λ rest. blanks indent ++ rest)
        (state O.receipt sink.old output.old) (state O.receipt sink.new output.new) }
{
    let (blanks, _) = BLANKS.split_at(indent);
    output.put(blanks, sink);
}

/// The line that ends a block.
#[inline(always)]
pub fn put_close<O: Sink>(indent: usize, output: &mut Output, sink: &mut O)
    requires { indent ≤ 16 }
    ensures { Puts (λ rest. blanks indent ++ (codes ")\n" ++ rest))
        (state O.receipt sink.old output.old) (state O.receipt sink.new output.new) }
{
    let (_, line) = CLOSE.split_at(16 - indent);
    output.put(line, sink);
}

/// The begin of the line of a reference to a port.
#[inline(always)]
pub(crate) fn open_port_ref<O: Sink>(indent: usize, output: &mut Output, sink: &mut O)
    requires { indent ≤ 16 }
    ensures { Puts (λ rest. blanks indent
        ++ (codes "(portRef " ++ rest))
        (state O.receipt sink.old output.old) (state O.receipt sink.new output.new) }
{
    let (_, line) = PORT_REF.split_at(16 - indent);
    output.put(line, sink);
}

/// The begin of the line of a property.
#[inline(always)]
pub(crate) fn open_property<O: Sink>(indent: usize, output: &mut Output, sink: &mut O)
    requires { indent ≤ 16 }
    ensures { Puts (λ rest. blanks indent
        ++ (codes "(property " ++ rest))
        (state O.receipt sink.old output.old) (state O.receipt sink.new output.new) }
{
    let (_, line) = PROPERTY.split_at(16 - indent);
    output.put(line, sink);
}

/// The begin of the line of the view of an instance.
#[inline(always)]
pub(crate) fn open_view_ref<O: Sink>(indent: usize, output: &mut Output, sink: &mut O)
    requires { indent ≤ 16 }
    ensures { Puts (λ rest. blanks indent
        ++ (codes "(viewRef " ++ rest))
        (state O.receipt sink.old output.old) (state O.receipt sink.new output.new) }
{
    let (_, line) = VIEW_REF.split_at(16 - indent);
    output.put(line, sink);
}

/// A line of these bytes, which end it.
#[inline(always)]
pub(crate) fn put_line<O: Sink>(indent: usize, bytes: &[u8], output: &mut Output, sink: &mut O)
    requires { indent ≤ 16 }
    ensures { Puts (λ rest. blanks indent ++ (bytes.now ++ rest))
        (state O.receipt sink.old output.old) (state O.receipt sink.new output.new) }
{
    put_indent(indent, output, sink);
    output.put(bytes, sink);
}

/// The first line of a block, from these bytes on.
#[inline(always)]
pub(crate) fn open_block<O: Sink>(
    indent: usize,
    bytes: &[u8],
    name: &NameDef,
    output: &mut Output,
    sink: &mut O,
)
    requires { indent ≤ 16 }
    ensures { Puts (λ rest. blanks indent ++ (bytes.now ++ inline (name_form name.now) (10 ∷ rest)))
        (state O.receipt sink.old output.old) (state O.receipt sink.new output.new) }
{
    put_indent(indent, output, sink);
    output.put(bytes, sink);
    write_name_line(name, output, sink);
}

/// A form on a line of its own.
pub(crate) fn write_line<T: OnLine, O: Sink>(
    form: &T,
    indent: usize,
    output: &mut Output,
    sink: &mut O,
)
    requires { indent ≤ 16 }
    ensures { Puts (laid indent (Flat (T.form form.now)))
        (state O.receipt sink.old output.old) (state O.receipt sink.new output.new) }
{
    put_indent(indent, output, sink);
    form.write(output, sink);
    output.put(b"\n", sink);
}

/// Forms, each after a blank.
pub(crate) fn write_each<T: OnLine, O: Sink>(items: &[T], output: &mut Output, sink: &mut O)
    ensures { Puts (spaced (each T.form items.now))
        (state O.receipt sink.old output.old) (state O.receipt sink.new output.new) }
{
    for item in items {
        output.put(b" ", sink);
        item.write(output, sink);
    }
}

/// Lines and blocks at one indent.
pub(crate) fn lay_each<T: OnLines, O: Sink>(
    items: &[T],
    indent: usize,
    output: &mut Output,
    sink: &mut O,
)
    requires { indent + T.depth ≤ 16 }
    ensures { Puts (lines indent (all T.block items.now))
        (state O.receipt sink.old output.old) (state O.receipt sink.new output.new) }
{
    for item in items {
        item.lay(indent, output, sink);
    }
}
