ghost use Rattle.std.specs.Prelude.{◌∷◌, false};
ghost use Rattle.vlog_writer.specs.Layout.{Form, between, comma_where, each, inline};
ghost use Rattle.nl_output.specs.Writing.{state, Puts};

use nl_io::Sink;
use nl_output::Output;

/// What is written on one line: a form within an item, or an item.
pub trait OnLine {
    /// The form of a value.
    ghost form: { Self → Form };

    /// Puts the text of the form.
    fn write<O: Sink>(&self, output: &mut Output, sink: &mut O)
        ensures { Puts (inline (form self.now))
            (state O.receipt sink.old output.old) (state O.receipt sink.new output.new) };
}

/// A comma and a blank, where they are due.
pub(crate) fn put_comma<O: Sink>(due: bool, output: &mut Output, sink: &mut O)
    ensures { Puts (comma_where due)
        (state O.receipt sink.old output.old) (state O.receipt sink.new output.new) }
{
    if due {
        output.put(b", ", sink);
    }
}

/// Forms with commas between them, and one before the first where it is due.
pub(crate) fn write_between<T: OnLine, O: Sink>(
    comma: bool,
    items: &[T],
    output: &mut Output,
    sink: &mut O,
)
    ensures { Puts (between comma (each T.form items.now))
        (state O.receipt sink.old output.old) (state O.receipt sink.new output.new) }
{
    let mut due = comma;
    for item in items {
        put_comma(due, output, sink);
        item.write(output, sink);
        due = true;
    }
}

/// Forms with commas between them.
pub(crate) fn write_listed<T: OnLine, O: Sink>(items: &[T], output: &mut Output, sink: &mut O)
    ensures { Puts (between false (each T.form items.now))
        (state O.receipt sink.old output.old) (state O.receipt sink.new output.new) }
{
    write_between(false, items, output, sink);
}
