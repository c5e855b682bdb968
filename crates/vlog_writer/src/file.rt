ghost use Rattle.std.specs.Prelude.{◌∷◌, ◌++◌, codes, true};
ghost use Rattle.vlog_writer.specs.Forms.{attr_form, attribute_lines, decl_lines, end_line, file_lines, group_form, hashed, header_lines, module_lines, names_form, nettype_line, nettype_lines, round, start_lines, vlog_text};
ghost use Rattle.vlog_writer.specs.Layout.{Mark, Name, Row, Word, both, each, inline, laid, part, ◌below◌, ◌▸◌};
ghost use Rattle.vlog_writer.specs.Pending.{break_where, end_where};
ghost use Rattle.nl_output.specs.Writing.{state, Puts, Writes};

use crate::declaration::write_hashed;
use crate::forms::{OnLine, write_between, write_listed};
use crate::item::lay_items;
use nl_base::{Seq, Text};
use nl_io::{Failed, Sink};
use nl_output::Output;
use vlog_values::{Attr, Header, Module, PortDecl, VlogFile};

/// The attributes of a module on a line, if there are any (IEEE 1364-2005, 3.8).
fn lay_attributes<O: Sink>(attrs: &[Attr], output: &mut Output, sink: &mut O)
    ensures { Puts (laid (attribute_lines (each attr_form attrs.now)))
        (state O.receipt sink.old output.old) (state O.receipt sink.new output.new) }
{
    if let [first, others @ ..] = attrs {
        output.put(b"(* ", sink);
        first.write(output, sink);
        write_between(true, others, output, sink);
        output.put(b" *)\n", sink);
    }
}

/// The end of a line behind which another declaration follows.
fn put_break<O: Sink>(due: bool, output: &mut Output, sink: &mut O)
    ensures { Puts (break_where due)
        (state O.receipt sink.old output.old) (state O.receipt sink.new output.new) }
{
    if due {
        output.put(b",\n", sink);
    }
}

/// The end of a line.
fn put_end<O: Sink>(due: bool, output: &mut Output, sink: &mut O)
    ensures { Puts (end_where due)
        (state O.receipt sink.old output.old) (state O.receipt sink.new output.new) }
{
    if due {
        output.put(b"\n", sink);
    }
}

/// The declarations of a header, each on a line.
fn lay_decls<O: Sink>(decls: &[PortDecl], output: &mut Output, sink: &mut O)
    ensures { Puts (laid (decl_lines decls.now))
        (state O.receipt sink.old output.old) (state O.receipt sink.new output.new) }
{
    let mut due = false;
    for decl in decls {
        put_break(due, output, sink);
        output.put(b"  ", sink);
        decl.write(output, sink);
        due = true;
    }
    put_end(due, output, sink);
}

/// The first line of a module, up to its header.
fn write_heading<O: Sink>(module: &Module, output: &mut Output, sink: &mut O)
    ensures { Puts (inline (Row (Word (codes "module"))
        (both (part (Name «module».now.name)) (hashed (each group_form «module».now.params)))))
        (state O.receipt sink.old output.old) (state O.receipt sink.new output.new) }
{
    output.put(b"module ", sink);
    module.name.write(output, sink);
    write_hashed(module.params.items(), output, sink);
}

/// Names in a header, and the end of its line.
fn write_names<O: Sink>(names: &[Text], output: &mut Output, sink: &mut O)
    ensures { Puts (λ rest. 32 ∷ inline (round (names_form names.now) ▸ Mark 59) (10 ∷ rest))
        (state O.receipt sink.old output.old) (state O.receipt sink.new output.new) }
{
    output.put(b" (", sink);
    write_listed(names, output, sink);
    output.put(b");\n", sink);
}

/// The header of a module (IEEE 1364-2005, 12.3).
fn lay_header<O: Sink>(module: &Module, output: &mut Output, sink: &mut O)
    ensures { Puts (laid (header_lines «module».now «module».now.header))
        (state O.receipt sink.old output.old) (state O.receipt sink.new output.new) }
{
    match &module.header {
        Header::Names(names) => {
            write_heading(module, output, sink);
            write_names(names.items(), output, sink);
        }
        Header::Decls(decls) => {
            write_heading(module, output, sink);
            output.put(b" (\n", sink);
            lay_decls(decls.items(), output, sink);
            output.put(b");\n", sink);
        }
    }
}

/// The last line of a module (IEEE 1364-2005, 12.1).
pub fn lay_module_end<O: Sink>(output: &mut Output, sink: &mut O)
    ensures { Puts (laid end_line)
        (state O.receipt sink.old output.old) (state O.receipt sink.new output.new) }
{
    output.put(b"endmodule\n", sink);
}

/// The line that says whether names may stand without a declaration (IEEE 1364-2005, 19.2).
fn put_nettype<O: Sink>(implicit: bool, output: &mut Output, sink: &mut O)
    ensures { Puts (laid (nettype_line implicit))
        (state O.receipt sink.old output.old) (state O.receipt sink.new output.new) }
{
    if implicit {
        output.put(b"`default_nettype wire\n", sink);
        return;
    }
    output.put(b"`default_nettype none\n", sink);
}

/// That line, where it changes what was so before.
fn lay_nettype<O: Sink>(before: bool, implicit: bool, output: &mut Output, sink: &mut O)
    ensures { Puts (laid (nettype_lines before implicit))
        (state O.receipt sink.old output.old) (state O.receipt sink.new output.new) }
{
    if before {
        if !implicit {
            put_nettype(false, output, sink);
        }
        return;
    }
    if implicit {
        put_nettype(true, output, sink);
    }
}

/// The lines of a module behind others up to its items: the line that says whether names may stand without a declaration, where the module
/// changes what was so before, its attributes and its header.
pub fn lay_module_start<O: Sink>(before: bool, module: &Module, output: &mut Output, sink: &mut O)
    ensures { Puts (laid (start_lines before «module».now))
        (state O.receipt sink.old output.old) (state O.receipt sink.new output.new) }
{
    lay_nettype(before, module.implicit, output, sink);
    lay_attributes(module.attrs.items(), output, sink);
    lay_header(module, output, sink);
}

/// A module behind others (IEEE 1364-2005, 12.1).
fn lay_next_module<O: Sink>(before: bool, module: &Module, output: &mut Output, sink: &mut O)
    ensures { Puts
        (laid (nettype_lines before «module».now.implicit below module_lines «module».now))
        (state O.receipt sink.old output.old) (state O.receipt sink.new output.new) }
{
    lay_module_start(before, module, output, sink);
    lay_items(module.items.items(), output, sink);
    lay_module_end(output, sink);
}

/// Modules, of which the first stands behind no other.
fn lay_modules<O: Sink>(modules: &[Module], output: &mut Output, sink: &mut O)
    ensures { Puts (laid (file_lines true modules.now))
        (state O.receipt sink.old output.old) (state O.receipt sink.new output.new) }
{
    let mut before = true;
    for module in modules {
        lay_next_module(before, module, output, sink);
        before = module.implicit;
    }
}

/// Writes the text of a file: it takes no memory, and answers `Ok` exactly where the sink took the whole text.
pub fn write_vlog<O: Sink>(file: &VlogFile, sink: &mut O) -> Result<(), Failed>
    ensures { Writes O.receipt sink.old sink.new (vlog_text file.now) result }
{
    let mut output = Output::new();
    lay_modules(file.modules.items(), &mut output, sink);
    let result = output.finish(sink);
    result
}
