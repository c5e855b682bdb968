ghost use Rattle.std.specs.Prelude.{◌≡◌, ◌++◌};
ghost use Rattle.nl_output.specs.Writing.{state, Puts, Writes};
ghost use Rattle.netlist_cli.specs.Lines.{fault_then, limit_then, line, message_then, names_then, reason_then, refusal_then, refused_then, tool_refusal_then, word_then};
ghost use Rattle.netlist_cli.specs.Runs.{IsTold};
ghost use Rattle.netlist_cli.specs.Statuses.{status_of};

use crate::failure::Failure;
use crate::status::Status;
use crate::tools::ToolRefusal;
use edif_writer::string::write_string;
use nl_base::{Reason, Refusal, Seq, Text, TextFault};
use nl_io::{Failed, Sink};
use nl_output::Output;

/// The forms of all commands.
const USAGE: &[u8] =
    b"usage: netlist format or vformat or check [--top NAME] or report [--top NAME] [--zero CELL.PORT] [--one CELL.PORT] or to-verilog {--parameter NAME} or to-edif --top NAME [--zero CELL.PORT] [--one CELL.PORT] or generate SEED CELLS or lint [--top NAME] [--zero CELL.PORT] [--one CELL.PORT] or flatten [--top NAME] [--zero CELL.PORT] [--one CELL.PORT] or to-spice [--top NAME]";

/// Puts a reason by its name, and behind a blank the word that it carries.
fn put_reason<E: Sink>(reason: &Reason, output: &mut Output, errors: &mut E)
    ensures { Puts (reason_then reason.now)
        (state E.receipt errors.old output.old)
        (state E.receipt errors.new output.new) }
{
    output.put(reason.name(), errors);
    if let Some(word) = reason.word() {
        output.put(b" ", errors);
        output.put(word, errors);
    }
}

/// Puts a fault of the text with its place.
fn put_fault<E: Sink>(fault: &TextFault, output: &mut Output, errors: &mut E)
    ensures { Puts (fault_then fault.now)
        (state E.receipt errors.old output.old)
        (state E.receipt errors.new output.new) }
{
    output.put(b"fault ", errors);
    output.put_u64(fault.place.line, errors);
    output.put(b":", errors);
    output.put_u64(fault.place.column, errors);
    output.put(b" ", errors);
    put_reason(&fault.reason, output, errors);
}

/// Puts the names of a refusal, each after a blank. There are few.
fn put_names<E: Sink>(names: &[Text], output: &mut Output, errors: &mut E)
    ensures { Puts (names_then names.now)
        (state E.receipt errors.old output.old)
        (state E.receipt errors.new output.new) }
{
    if let [first, others @ ..] = names {
        output.put(b" ", errors);
        write_string(first.bytes(), output, errors);
        put_names(others, output, errors);
    }
}

/// Puts a refusal by its rule, its cell and its names.
#[tactic(auto, unfolding(crate::specs::Lines::refused_then))]
fn put_refused<E: Sink>(
    rule: &[u8],
    cell: &Text,
    names: &Seq<Text>,
    output: &mut Output,
    errors: &mut E,
)
    ensures { Puts (refused_then rule.now cell.now names.now)
        (state E.receipt errors.old output.old)
        (state E.receipt errors.new output.new) }
{
    output.put(b"refused ", errors);
    output.put(rule, errors);
    output.put(b" ", errors);
    write_string(cell.bytes(), output, errors);
    put_names(names.items(), output, errors);
}

/// Puts a refusal by a rule of a language.
fn put_refusal<E: Sink>(refusal: &Refusal, output: &mut Output, errors: &mut E)
    ensures { Puts (refusal_then refusal.now)
        (state E.receipt errors.old output.old)
        (state E.receipt errors.new output.new) }
{
    let rule = refusal.rule.name();
    put_refused(rule, &refusal.cell, &refusal.names, output, errors);
}

/// Puts a refusal by a rule of a tool.
fn put_tool_refusal<E: Sink>(refusal: &ToolRefusal, output: &mut Output, errors: &mut E)
    ensures { Puts (tool_refusal_then refusal.now)
        (state E.receipt errors.old output.old)
        (state E.receipt errors.new output.new) }
{
    let rule = refusal.rule.name();
    put_refused(rule, &refusal.cell, &refusal.names, output, errors);
}

/// Puts a limit of this kind, and the number that passes it.
#[tactic(auto, unfolding(crate::specs::Lines::limit_then))]
fn put_limit<E: Sink>(kind: &[u8], number: u64, output: &mut Output, errors: &mut E)
    ensures { Puts (limit_then kind.now number)
        (state E.receipt errors.old output.old)
        (state E.receipt errors.new output.new) }
{
    output.put(b"limit ", errors);
    output.put(kind, errors);
    output.put(b" ", errors);
    output.put_u64(number, errors);
}

/// Puts what is told of a failure.
fn put_message<E: Sink>(failure: &Failure, output: &mut Output, errors: &mut E)
    ensures { Puts (message_then failure.now)
        (state E.receipt errors.old output.old)
        (state E.receipt errors.new output.new) }
{
    match failure {
        Failure::Text(fault) => put_fault(fault, output, errors),
        Failure::Refused(refusal) => put_refusal(refusal, output, errors),
        Failure::RefusedByTool(refusal) => put_tool_refusal(refusal, output, errors),
        Failure::ReadFault => output.put(b"read fault", errors),
        Failure::WriteFault => output.put(b"write fault", errors),
        Failure::Usage => output.put(USAGE, errors),
        Failure::NoMemory => output.put(b"no memory", errors),
        Failure::InputLimit => output.put(b"limit input", errors),
        Failure::DesignLimit(units) => put_limit(b"design", *units, output, errors),
        Failure::FlatLimit(count) => put_limit(b"flat", *count, output, errors),
    }
}

/// Puts the line of a failure.
fn put_line<E: Sink>(failure: &Failure, errors: &mut E) -> Result<(), Failed>
    ensures { Writes E.receipt errors.old errors.new (line failure.now) result }
{
    let mut output = Output::new();
    put_message(failure, &mut output, errors);
    output.put(b"\n", errors);
    let result = output.finish(errors);
    result
}

/// Tells a failure by its line on `errors`, and answers its status, which does not depend on how the writing went.
pub fn report<E: Sink>(failure: &Failure, errors: &mut E) -> Status
    ensures status { result ≡ status_of failure.now }
    ensures told { IsTold E.receipt errors.old errors.new (line failure.now) }
{
    let _said = put_line(failure, errors);
    failure.status()
}
