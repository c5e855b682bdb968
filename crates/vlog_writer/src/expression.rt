ghost use Rattle.std.specs.Prelude.{false};
ghost use Rattle.vlog_writer.specs.Forms.{attr_form, bounds_form, cat_form, const_form, expr_form, ref_form, set_form, square, value_form};
ghost use Rattle.vlog_writer.specs.Layout.{attributed, between, each, inline};
ghost use Rattle.nl_output.specs.Writing.{state, Puts};

use crate::forms::{OnLine, put_comma, write_between};
use crate::literal::{put_index, write_based, write_literal, write_real};
use crate::name::write_name;
use crate::string::write_string;
use nl_base::{Seq, Text};
use nl_io::Sink;
use nl_output::Output;
use vlog_values::{Attr, Const, Expr, ParamSet, Select};

impl OnLine for Const {
    ghost form = { const_form };

    fn write<O: Sink>(&self, output: &mut Output, sink: &mut O) {
        match self {
            Const::Str(text) => write_string(text.bytes(), output, sink),
            Const::Number(number) => output.put_int(number, sink),
            Const::Real(real) => write_real(real, output, sink),
            Const::Lit(literal) => write_literal(literal, output, sink),
            Const::Loose(based) => write_based(based, output, sink),
        }
    }
}

impl OnLine for Attr {
    ghost form = { attr_form };

    fn write<O: Sink>(&self, output: &mut Output, sink: &mut O) {
        write_name(self.name.bytes(), output, sink);
        output.put(b" = ", sink);
        self.value.write(output, sink);
    }
}

impl OnLine for ParamSet {
    ghost form = { set_form };

    fn write<O: Sink>(&self, output: &mut Output, sink: &mut O) {
        self.name.write(output, sink);
        output.put(b" = ", sink);
        self.value.write(output, sink);
    }
}

/// The attributes of an object and a blank, if there are any (IEEE 1364-2005, 3.8).
pub(crate) fn write_attributes<O: Sink>(attrs: &[Attr], output: &mut Output, sink: &mut O)
    ensures { Puts (attributed (each attr_form attrs.now))
        (state O.receipt sink.old output.old) (state O.receipt sink.new output.new) }
{
    if let [first, others @ ..] = attrs {
        output.put(b"(* ", sink);
        first.write(output, sink);
        write_between(true, others, output, sink);
        output.put(b" *) ", sink);
    }
}

/// Two indexes of bits in `[` and `]`.
pub(crate) fn write_bounds<O: Sink>(left: i32, right: i32, output: &mut Output, sink: &mut O)
    ensures { Puts (inline (square (bounds_form left right)))
        (state O.receipt sink.old output.old) (state O.receipt sink.new output.new) }
{
    output.put(b"[", sink);
    put_index(left, output, sink);
    output.put(b":", sink);
    put_index(right, output, sink);
    output.put(b"]", sink);
}

/// A name and the bits of it that are meant.
fn write_ref<O: Sink>(name: &Text, select: Select, output: &mut Output, sink: &mut O)
    ensures { Puts (inline (ref_form name.now select))
        (state O.receipt sink.old output.old) (state O.receipt sink.new output.new) }
{
    match select {
        Select::All => name.write(output, sink),
        Select::One(index) => {
            name.write(output, sink);
            output.put(b"[", sink);
            put_index(index, output, sink);
            output.put(b"]", sink);
        }
        Select::Slice(left, right) => {
            name.write(output, sink);
            write_bounds(left, right, output, sink);
        }
    }
}

/// Expressions with commas between them.
#[cycle(expressions)]
fn write_exprs<O: Sink>(exprs: &[Expr], output: &mut Output, sink: &mut O)
    ensures { Puts (between false (each expr_form exprs.now))
        (state O.receipt sink.old output.old) (state O.receipt sink.new output.new) }
{
    let mut due = false;
    for expr in exprs {
        put_comma(due, output, sink);
        write_expr(expr, output, sink);
        due = true;
    }
}

/// A concatenation.
#[cycle(expressions)]
fn write_cat<O: Sink>(exprs: &[Expr], output: &mut Output, sink: &mut O)
    ensures { Puts (inline (cat_form (each expr_form exprs.now)))
        (state O.receipt sink.old output.old) (state O.receipt sink.new output.new) }
{
    output.put(b"{", sink);
    write_exprs(exprs, output, sink);
    output.put(b"}", sink);
}

/// An expression.
#[cycle(expressions)]
pub(crate) fn write_expr<O: Sink>(expr: &Expr, output: &mut Output, sink: &mut O)
    ensures { Puts (inline (expr_form expr.now))
        (state O.receipt sink.old output.old) (state O.receipt sink.new output.new) }
{
    match expr {
        Expr::Ref { select, name } => write_ref(name, *select, output, sink),
        Expr::Lit(literal) => write_literal(literal.get(), output, sink),
        Expr::LooseNumber(number) => output.put_int(number, sink),
        Expr::Loose(based) => write_based(based, output, sink),
        Expr::Cat(exprs) => write_cat(exprs.items(), output, sink),
        Expr::Rep(count, exprs) => {
            output.put(b"{", sink);
            output.put_int(count, sink);
            write_cat(exprs.get().items(), output, sink);
            output.put(b"}", sink);
        }
    }
}

impl OnLine for Option<Expr> {
    ghost form = { value_form };

    fn write<O: Sink>(&self, output: &mut Output, sink: &mut O) {
        if let Some(expr) = self {
            write_expr(expr, output, sink);
        }
    }
}
