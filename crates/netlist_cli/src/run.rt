ghost use Rattle.std.specs.Prelude.{◌≡◌, ◌≢◌, ◌↔◌, Ok, Err, Some, None, IfSome};
ghost use Rattle.nl_io.specs.Causes.{Rose};
ghost use Rattle.netlist_words.specs.Commands.{IfCommand, IsNoCommand};
ghost use Rattle.netlist_cli.specs.Meanings.{meaning_of};
ghost use Rattle.netlist_cli.specs.Runs.{BrokeOff, Does, DoesWords, EndsUnread, FitsBytes, HasFewCells, IsDecided, LeavesInput, DoesCommand, ReadsNothing, TakesFrom, TellsFailure, WroteText};

use crate::checking::check;
use crate::failure::Failure;
use crate::flattening::write_flattened;
use crate::formatting::{format, vformat};
use crate::generating::write_generated;
use crate::line::report;
use crate::linting::write_findings;
use crate::reporting::write_report;
use crate::retranslating::translate_back;
use crate::status::Status;
use crate::subcircuits::write_subcircuits;
use crate::translating::translate;
use netlist_words::Command;
use nl_base::{Seq, Text};
use nl_io::{Sink, Source};
use std::alloc::Global;

/// Carries out a command.
fn dispatch<S: Source, O: Sink>(
    alloc: Global,
    command: &Command,
    input: &mut S,
    output: &mut O,
) -> Result<(), Failure>
    requires { HasFewCells command.now }
    ensures does { Does O.receipt (meaning_of command.now)
        (S.supply input.old) (S.supply input.new)
        output.old output.new result }
    ensures unread { ReadsNothing command.now
        → (input.new ≡ input.old) × EndsUnread result }
    ensures taken { TakesFrom
        (S.supply input.old) (S.supply input.new) }
{
    match command {
        Command::Format => format(alloc, input, output),
        Command::Vformat => vformat(alloc, input, output),
        Command::Check(top) => check(alloc, top, input, output),
        Command::Report(top, constants) => write_report(alloc, top, constants, input, output),
        Command::Lint(top, constants) => write_findings(alloc, top, constants, input, output),
        Command::ToVerilog(names) => translate(alloc, names, input, output),
        Command::ToEdif(top, constants) => translate_back(alloc, top, constants, input, output),
        Command::Flatten(top, constants) => write_flattened(alloc, top, constants, input, output),
        Command::ToSpice(top) => write_subcircuits(alloc, top, input, output),
        Command::Generate(seed, cells) => write_generated(alloc, *seed, *cells, output),
    }
}

/// Carries out the command that is asked for, if there is one.
fn dispatch_asked<S: Source, O: Sink>(
    alloc: Global,
    asked: &Option<Command>,
    input: &mut S,
    output: &mut O,
) -> Result<(), Failure>
    requires { IfSome asked.now HasFewCells }
    ensures performs { DoesCommand O.receipt (S.supply)
        asked.now input.old input.new output.old output.new result }
    ensures taken { TakesFrom
        (S.supply input.old) (S.supply input.new) }
{
    match asked {
        Some(command) => {
            let result = dispatch(alloc, command, input, output);
            result
        }
        None => Err(Failure::Usage),
    }
}

/// Does what the words ask for.
fn do_words<S: Source, O: Sink>(
    alloc: Global,
    words: &Seq<Text>,
    input: &mut S,
    output: &mut O,
) -> Result<(), Failure>
    ensures performs { DoesWords O.receipt (S.supply)
        words.now input.old input.new output.old output.new result }
    ensures taken { TakesFrom
        (S.supply input.old) (S.supply input.new) }
{
    match Command::of(alloc, words) {
        Ok(asked) => {
            let result = dispatch_asked(alloc, &asked, input, output);
            result
        }
        Err(_) => Err(Failure::NoMemory),
    }
}

/// Does all that the program does: the command for which the words ask is carried out from the input to the output, and a failure is told by
/// one line on `errors`. Memory may run out at any time before the first byte is put.
pub fn run<S: Source, O: Sink, E: Sink>(
    alloc: Global,
    words: &Seq<Text>,
    input: &mut S,
    output: &mut O,
    errors: &mut E,
) -> Status
    ensures done { result ≡ Status.Done
        → IfCommand words.now (λ c. WroteText O.receipt (meaning_of c)
        (S.supply input.old) (S.supply input.new)
        output.old output.new) }
    ensures write_fault { result ≡ Status.WriteFault
        → IfCommand words.now (λ c. BrokeOff O.receipt (meaning_of c)
        (S.supply input.old) (S.supply input.new)
        output.old output.new) }
    ensures failed { result ≢ Status.Done
        → TellsFailure E.receipt words.now
        (S.supply input.old) (S.supply input.new)
        errors.old errors.new result }
    ensures usage { (result ≡ Status.Usage) ↔ IsNoCommand words.now }
    ensures taken { TakesFrom
        (S.supply input.old) (S.supply input.new) }
    ensures unread { result ≡ Status.Usage → input.new ≡ input.old }
    ensures leaves_input { IfCommand words.now
        (λ c. ReadsNothing c → LeavesInput input.old input.new result) }
    ensures unwritten { result ≢ Status.Done → result ≢ Status.WriteFault
        → output.new ≡ output.old }
    ensures silent { result ≡ Status.Done → errors.new ≡ errors.old }
    ensures exact { IfCommand words.now (λ c. IfSome (S.supply input.old).left
        (λ bs. FitsBytes (meaning_of c) bs result)) }
    ensures complete { ¬ Rose (S.supply input.old).faults (S.supply input.new).faults
        → IfCommand words.now (λ c. IfSome (S.supply input.old).left
        (λ bs. IsDecided (meaning_of c) bs
        (Rose (O.receipt output.old).faults (O.receipt output.new).faults) result)) }
{
    match do_words(alloc, words, input, output) {
        Ok(()) => Status::Done,
        Err(failure) => report(&failure, errors),
    }
}
