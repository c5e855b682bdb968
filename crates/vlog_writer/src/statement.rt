ghost use Rattle.vlog_writer.specs.Forms.{assignment_form, assigns_form, conn_form, conns_form, def_form, defparams_form, hashed, inst_form, instances_form, override_form};
ghost use Rattle.vlog_writer.specs.Layout.{Path, each, further, inline, spaced};
ghost use Rattle.nl_output.specs.Writing.{state, Puts};

use crate::expression::{write_attributes, write_expr};
use crate::forms::{OnLine, write_listed};
use nl_base::Text;
use nl_io::Sink;
use nl_output::Output;
use vlog_values::{
    Assignment, Assigns, Conns, DefSet, Defparams, Instances, NamedConn, ParamSet, VInst,
};

impl OnLine for Assignment {
    ghost form = { assignment_form };

    fn write<O: Sink>(&self, output: &mut Output, sink: &mut O) {
        write_expr(&self.left, output, sink);
        output.put(b" = ", sink);
        write_expr(&self.right, output, sink);
    }
}

impl OnLine for Assigns {
    ghost form = { assigns_form };

    fn write<O: Sink>(&self, output: &mut Output, sink: &mut O) {
        write_attributes(self.attrs.items(), output, sink);
        output.put(b"assign ", sink);
        write_listed(self.sets.items(), output, sink);
    }
}

impl OnLine for NamedConn {
    ghost form = { conn_form };

    fn write<O: Sink>(&self, output: &mut Output, sink: &mut O) {
        output.put(b".", sink);
        self.port.write(output, sink);
        output.put(b"(", sink);
        self.value.write(output, sink);
        output.put(b")", sink);
    }
}

impl OnLine for Conns {
    ghost form = { conns_form };

    fn write<O: Sink>(&self, output: &mut Output, sink: &mut O) {
        match self {
            Conns::Named(conns) => write_listed(conns.items(), output, sink),
            Conns::Order(values) => write_listed(values.items(), output, sink),
        }
    }
}

impl OnLine for VInst {
    ghost form = { inst_form };

    fn write<O: Sink>(&self, output: &mut Output, sink: &mut O) {
        self.name.write(output, sink);
        output.put(b" (", sink);
        self.conns.write(output, sink);
        output.put(b")", sink);
    }
}

/// The value of a parameter of an instance.
fn write_override<O: Sink>(set: &ParamSet, output: &mut Output, sink: &mut O)
    ensures { Puts (inline (override_form set.now))
        (state O.receipt sink.old output.old) (state O.receipt sink.new output.new) }
{
    output.put(b".", sink);
    set.name.write(output, sink);
    output.put(b"(", sink);
    set.value.write(output, sink);
    output.put(b")", sink);
}

/// Values of parameters, each after a comma.
fn write_overrides<O: Sink>(sets: &[ParamSet], output: &mut Output, sink: &mut O)
    ensures { Puts (further (each override_form sets.now))
        (state O.receipt sink.old output.old) (state O.receipt sink.new output.new) }
{
    for set in sets {
        output.put(b", ", sink);
        write_override(set, output, sink);
    }
}

/// The values of the parameters of instances behind a blank, if there are any.
fn write_params<O: Sink>(sets: &[ParamSet], output: &mut Output, sink: &mut O)
    ensures { Puts (spaced (hashed (each override_form sets.now)))
        (state O.receipt sink.old output.old) (state O.receipt sink.new output.new) }
{
    if let [first, others @ ..] = sets {
        output.put(b" #(", sink);
        write_override(first, output, sink);
        write_overrides(others, output, sink);
        output.put(b")", sink);
    }
}

impl OnLine for Instances {
    ghost form = { instances_form };

    fn write<O: Sink>(&self, output: &mut Output, sink: &mut O) {
        write_attributes(self.attrs.items(), output, sink);
        self.module.write(output, sink);
        write_params(self.params.items(), output, sink);
        output.put(b" ", sink);
        write_listed(self.insts.items(), output, sink);
    }
}

/// A name of an object within another.
fn write_path<O: Sink>(outer: &Text, name: &Text, output: &mut Output, sink: &mut O)
    ensures { Puts (inline (Path outer.now name.now))
        (state O.receipt sink.old output.old) (state O.receipt sink.new output.new) }
{
    outer.write(output, sink);
    output.put(b".", sink);
    name.write(output, sink);
}

impl OnLine for DefSet {
    ghost form = { def_form };

    fn write<O: Sink>(&self, output: &mut Output, sink: &mut O) {
        write_path(&self.instance, &self.name, output, sink);
        output.put(b" = ", sink);
        self.value.write(output, sink);
    }
}

impl OnLine for Defparams {
    ghost form = { defparams_form };

    fn write<O: Sink>(&self, output: &mut Output, sink: &mut O) {
        write_attributes(self.attrs.items(), output, sink);
        output.put(b"defparam ", sink);
        write_listed(self.sets.items(), output, sink);
    }
}
