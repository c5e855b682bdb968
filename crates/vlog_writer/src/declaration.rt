ghost use Rattle.std.specs.Prelude.{codes};
ghost use Rattle.vlog_writer.specs.Forms.{dir_form, group_form, hashed, net_form, net_kind_form, param_form, port_form, port_kind_part, range_part, type_parts, vector_parts, word_where};
ghost use Rattle.vlog_writer.specs.Layout.{each, inline, spaced};
ghost use Rattle.nl_output.specs.Writing.{state, Puts};

use crate::expression::{write_attributes, write_bounds};
use crate::forms::{OnLine, write_between, write_listed};
use nl_base::{Dir, Range};
use nl_io::Sink;
use nl_output::Output;
use vlog_values::{NetDecl, NetKind, ParamDecl, ParamType, PortDecl, PortKind};

/// The word of a direction.
fn put_dir<O: Sink>(dir: Dir, output: &mut Output, sink: &mut O)
    ensures { Puts (inline (dir_form dir))
        (state O.receipt sink.old output.old) (state O.receipt sink.new output.new) }
{
    match dir {
        Dir::Input => output.put(b"input", sink),
        Dir::Output => output.put(b"output", sink),
        Dir::Inout => output.put(b"inout", sink),
    }
}

/// The word of a port's kind behind a blank, if it is said.
fn put_port_kind<O: Sink>(kind: Option<PortKind>, output: &mut Output, sink: &mut O)
    ensures { Puts (spaced (port_kind_part kind))
        (state O.receipt sink.old output.old) (state O.receipt sink.new output.new) }
{
    match kind {
        None => {}
        Some(PortKind::Wire) => output.put(b" wire", sink),
        Some(PortKind::Tri) => output.put(b" tri", sink),
    }
}

/// The word of a net's kind.
fn put_net_kind<O: Sink>(kind: NetKind, output: &mut Output, sink: &mut O)
    ensures { Puts (inline (net_kind_form kind))
        (state O.receipt sink.old output.old) (state O.receipt sink.new output.new) }
{
    match kind {
        NetKind::Wire => output.put(b"wire", sink),
        NetKind::Tri => output.put(b"tri", sink),
        NetKind::Supply0 => output.put(b"supply0", sink),
        NetKind::Supply1 => output.put(b"supply1", sink),
    }
}

/// `signed` behind a blank, where it is said.
fn put_signed<O: Sink>(signed: bool, output: &mut Output, sink: &mut O)
    ensures { Puts (spaced (word_where signed (codes "signed")))
        (state O.receipt sink.old output.old) (state O.receipt sink.new output.new) }
{
    if signed {
        output.put(b" signed", sink);
    }
}

/// A range behind a blank, if there is one.
fn write_range<O: Sink>(range: &Option<Range>, output: &mut Output, sink: &mut O)
    ensures { Puts (spaced (range_part range.now))
        (state O.receipt sink.old output.old) (state O.receipt sink.new output.new) }
{
    if let Some(range) = range {
        output.put(b" ", sink);
        write_bounds(range.left, range.right, output, sink);
    }
}

/// `signed` and a range, each behind a blank, where they are said.
fn write_vector<O: Sink>(signed: bool, range: &Option<Range>, output: &mut Output, sink: &mut O)
    ensures { Puts (spaced (vector_parts signed range.now))
        (state O.receipt sink.old output.old) (state O.receipt sink.new output.new) }
{
    put_signed(signed, output, sink);
    write_range(range, output, sink);
}

impl OnLine for PortDecl {
    ghost form = { port_form };

    fn write<O: Sink>(&self, output: &mut Output, sink: &mut O) {
        write_attributes(self.attrs.items(), output, sink);
        put_dir(self.dir, output, sink);
        put_port_kind(self.kind, output, sink);
        write_vector(self.signed, &self.range, output, sink);
        output.put(b" ", sink);
        write_listed(self.names.items(), output, sink);
    }
}

impl OnLine for NetDecl {
    ghost form = { net_form };

    fn write<O: Sink>(&self, output: &mut Output, sink: &mut O) {
        write_attributes(self.attrs.items(), output, sink);
        put_net_kind(self.kind, output, sink);
        write_vector(self.signed, &self.range, output, sink);
        output.put(b" ", sink);
        write_listed(self.names.items(), output, sink);
    }
}

/// The type of parameters, each word behind a blank.
fn write_type<O: Sink>(kind: &ParamType, output: &mut Output, sink: &mut O)
    ensures { Puts (spaced (type_parts kind.now))
        (state O.receipt sink.old output.old) (state O.receipt sink.new output.new) }
{
    match kind {
        ParamType::Plain { signed, range } => write_vector(*signed, range, output, sink),
        ParamType::Integer => output.put(b" integer", sink),
        ParamType::Real => output.put(b" real", sink),
    }
}

impl OnLine for ParamDecl {
    ghost form = { group_form };

    fn write<O: Sink>(&self, output: &mut Output, sink: &mut O) {
        output.put(b"parameter", sink);
        write_type(&self.kind, output, sink);
        output.put(b" ", sink);
        write_listed(self.sets.items(), output, sink);
    }
}

/// A declaration of parameters as an item (IEEE 1364-2005, 4.10.1).
pub(crate) fn write_param<O: Sink>(param: &ParamDecl, output: &mut Output, sink: &mut O)
    ensures { Puts (inline (param_form param.now))
        (state O.receipt sink.old output.old) (state O.receipt sink.new output.new) }
{
    write_attributes(param.attrs.items(), output, sink);
    param.write(output, sink);
}

/// `#` and a list in `(` and `)` behind a blank, where the list is not empty.
pub(crate) fn write_hashed<T: OnLine, O: Sink>(items: &[T], output: &mut Output, sink: &mut O)
    ensures { Puts (spaced (hashed (each T.form items.now)))
        (state O.receipt sink.old output.old) (state O.receipt sink.new output.new) }
{
    if let [first, others @ ..] = items {
        output.put(b" #(", sink);
        first.write(output, sink);
        write_between(true, others, output, sink);
        output.put(b")", sink);
    }
}
