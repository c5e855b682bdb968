ghost use Rattle.edif_writer.specs.Forms.{stamp_form, status_block, status_form, status_item_block, status_item_form, with_version, written_block, written_form, written_item_block, written_item_form};
ghost use Rattle.edif_writer.specs.Layout.{spaced};
ghost use Rattle.nl_output.specs.Writing.{state, Puts};

use crate::forms::{OnLine, OnLines, lay_each, put_close, put_line, write_each, write_line};
use edif_values::{Stamp, Status, StatusItem, Written, WrittenItem};
use nl_base::Text;
use nl_io::Sink;
use nl_output::Output;

impl OnLine for Stamp {
    ghost form = { stamp_form };

    fn write<O: Sink>(&self, output: &mut Output, sink: &mut O) {
        output.put(b"(timeStamp ", sink);
        self.year.write(output, sink);
        output.put(b" ", sink);
        self.month.write(output, sink);
        output.put(b" ", sink);
        self.day.write(output, sink);
        output.put(b" ", sink);
        self.hour.write(output, sink);
        output.put(b" ", sink);
        self.minute.write(output, sink);
        output.put(b" ", sink);
        self.second.write(output, sink);
        output.put(b")", sink);
    }
}

/// A string, and a version if there is one, each after a blank.
fn write_with_version<O: Sink>(
    text: &Text,
    version: &Option<Text>,
    output: &mut Output,
    sink: &mut O,
)
    ensures { Puts (spaced (with_version text.now version.now))
        (state O.receipt sink.old output.old) (state O.receipt sink.new output.new) }
{
    output.put(b" ", sink);
    text.write(output, sink);
    if let Some(version) = version {
        output.put(b" (version ", sink);
        version.write(output, sink);
        output.put(b")", sink);
    }
}

impl OnLine for WrittenItem {
    ghost form = { written_item_form };

    fn write<O: Sink>(&self, output: &mut Output, sink: &mut O) {
        match self {
            WrittenItem::Author(text) => {
                output.put(b"(author ", sink);
                text.write(output, sink);
                output.put(b")", sink);
            }
            WrittenItem::Program(text, version) => {
                output.put(b"(program", sink);
                write_with_version(text, version, output, sink);
                output.put(b")", sink);
            }
            WrittenItem::DataOrigin(text, version) => {
                output.put(b"(dataOrigin", sink);
                write_with_version(text, version, output, sink);
                output.put(b")", sink);
            }
            WrittenItem::Note(note) => note.write(output, sink),
        }
    }
}

impl OnLine for Written {
    ghost form = { written_form };

    fn write<O: Sink>(&self, output: &mut Output, sink: &mut O) {
        output.put(b"(written ", sink);
        self.stamp.write(output, sink);
        write_each(self.items.items(), output, sink);
        output.put(b")", sink);
    }
}

impl OnLine for StatusItem {
    ghost form = { status_item_form };

    fn write<O: Sink>(&self, output: &mut Output, sink: &mut O) {
        match self {
            StatusItem::Written(written) => written.write(output, sink),
            StatusItem::Note(note) => note.write(output, sink),
        }
    }
}

impl OnLine for Status {
    ghost form = { status_form };

    fn write<O: Sink>(&self, output: &mut Output, sink: &mut O) {
        output.put(b"(status", sink);
        write_each(self.items.items(), output, sink);
        output.put(b")", sink);
    }
}

impl OnLines for WrittenItem {
    ghost block = { written_item_block };

    ghost depth = { 0 };

    fn lay<O: Sink>(&self, indent: usize, output: &mut Output, sink: &mut O) {
        write_line(self, indent, output, sink);
    }
}

impl OnLines for Written {
    ghost block = { written_block };

    ghost depth = { 2 };

    fn lay<O: Sink>(&self, indent: usize, output: &mut Output, sink: &mut O) {
        put_line(indent, b"(written\n", output, sink);
        write_line(&self.stamp, indent + 2, output, sink);
        lay_each(self.items.items(), indent + 2, output, sink);
        put_close(indent, output, sink);
    }
}

impl OnLines for StatusItem {
    ghost block = { status_item_block };

    ghost depth = { 2 };

    fn lay<O: Sink>(&self, indent: usize, output: &mut Output, sink: &mut O) {
        match self {
            StatusItem::Written(written) => written.lay(indent, output, sink),
            StatusItem::Note(note) => write_line(note, indent, output, sink),
        }
    }
}

impl OnLines for Status {
    ghost block = { status_block };

    ghost depth = { 4 };

    fn lay<O: Sink>(&self, indent: usize, output: &mut Output, sink: &mut O) {
        put_line(indent, b"(status\n", output, sink);
        lay_each(self.items.items(), indent + 2, output, sink);
        put_close(indent, output, sink);
    }
}
