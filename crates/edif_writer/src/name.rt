ghost use Rattle.edif_writer.specs.Forms.{comment_form, name_form, port_name_form, property_form, tail_form, value_form};
ghost use Rattle.edif_writer.specs.Layout.{Flat, each, inline, laid, spaced};
ghost use Rattle.edif_writer.specs.Strings.{PutsUntil};
ghost use Rattle.std.specs.Prelude.{◌∷◌, ◌≤◌};
ghost use Rattle.nl_output.specs.Writing.{state, Puts};

use crate::forms::{OnLine, open_property, write_each};
use crate::string::write_runs;
use crate::value::write_value;
use edif_values::{NameDef, PortName, PropTail, Property};
use nl_base::{Seq, Text};
use nl_io::Sink;
use nl_output::Output;

impl OnLine for NameDef {
    ghost form = { name_form };

    fn write<O: Sink>(&self, output: &mut Output, sink: &mut O) {
        match self.text.bytes() {
            None => self.ident.write(output, sink),
            Some(text) => {
                output.put(b"(rename ", sink);
                self.ident.write(output, sink);
                output.put(b" \"", sink);
                write_runs(text, output, sink);
                output.put(b"\")", sink);
            }
        }
    }
}

/// A name, at the end of its line.
#[inline(always)]
pub(crate) fn write_name_line<O: Sink>(name: &NameDef, output: &mut Output, sink: &mut O)
    ensures { Puts (λ rest. inline (name_form name.now) (10 ∷ rest))
        (state O.receipt sink.old output.old) (state O.receipt sink.new output.new) }
{
    match name.text.bytes() {
        None => {
            name.ident.write(output, sink);
            output.put(b"\n", sink);
        }
        Some(text) => {
            output.put(b"(rename ", sink);
            name.ident.write(output, sink);
            output.put(b" \"", sink);
            write_runs(text, output, sink);
            output.put(b"\")\n", sink);
        }
    }
}

impl OnLine for PortName {
    ghost form = { port_name_form };

    fn write<O: Sink>(&self, output: &mut Output, sink: &mut O) {
        match self {
            PortName::Single(name) => name.write(output, sink),
            PortName::Array(name, size) => {
                output.put(b"(array ", sink);
                name.write(output, sink);
                output.put(b" ", sink);
                size.write(output, sink);
                output.put(b")", sink);
            }
        }
    }
}

/// Strings in a comment.
pub(crate) fn write_comment<O: Sink>(texts: &Seq<Text>, output: &mut Output, sink: &mut O)
    ensures { Puts (inline (comment_form texts.now))
        (state O.receipt sink.old output.old) (state O.receipt sink.new output.new) }
{
    output.put(b"(comment", sink);
    write_each(texts.items(), output, sink);
    output.put(b")", sink);
}

impl OnLine for PropTail {
    ghost form = { tail_form };

    fn write<O: Sink>(&self, output: &mut Output, sink: &mut O) {
        match self {
            PropTail::Owner(owner) => {
                output.put(b"(owner ", sink);
                owner.write(output, sink);
                output.put(b")", sink);
            }
            PropTail::Comment(texts) => write_comment(texts, output, sink),
        }
    }
}

impl OnLine for Property {
    ghost form = { property_form };

    fn write<O: Sink>(&self, output: &mut Output, sink: &mut O) {
        output.put(b"(property ", sink);
        write_named_value(self, output, sink);
        output.put(b")", sink);
        write_each(self.tail.items(), output, sink);
        output.put(b")", sink);
    }
}

/// The name and the value of a property, of which the `)` of the value is still to come.
#[inline(always)]
fn write_named_value<O: Sink>(property: &Property, output: &mut Output, sink: &mut O)
    ensures { PutsUntil (λ rest. inline (name_form property.now.name) (32
        ∷ inline (value_form property.now.value) rest)) (λ rest. 41 ∷ rest)
        (state O.receipt sink.old output.old) (state O.receipt sink.new output.new) }
{
    property.name.write(output, sink);
    write_value(&property.value, output, sink);
}

/// What follows the value of a property, with the `)` of both, at the end of its line.
#[inline(always)]
fn end_property<O: Sink>(tail: &[PropTail], output: &mut Output, sink: &mut O)
    ensures { Puts (λ rest. 41 ∷ spaced (each tail_form tail.now) (41 ∷ 10 ∷ rest))
        (state O.receipt sink.old output.old) (state O.receipt sink.new output.new) }
{
    if let [_first, _others @ ..] = tail {
        output.put(b")", sink);
        write_each(tail, output, sink);
        output.put(b")\n", sink);
        return;
    }
    output.put(b"))\n", sink);
}

/// A property on a line of its own.
#[inline(always)]
pub(crate) fn lay_property<O: Sink>(
    property: &Property,
    indent: usize,
    output: &mut Output,
    sink: &mut O,
)
    requires { indent ≤ 16 }
    ensures { Puts (laid indent (Flat (property_form property.now)))
        (state O.receipt sink.old output.old) (state O.receipt sink.new output.new) }
{
    open_property(indent, output, sink);
    write_named_value(property, output, sink);
    end_property(property.tail.items(), output, sink);
}
