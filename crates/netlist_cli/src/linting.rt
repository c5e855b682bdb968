ghost use Rattle.net_lint.specs.Lint.{IsLint};
ghost use Rattle.netlist_words.specs.declared.command.Command.TheVariants as commands;
ghost use Rattle.netlist_cli.specs.Designs.{MakesOf};
ghost use Rattle.netlist_cli.specs.Meanings.{few_flat, meaning_of};
ghost use Rattle.netlist_cli.specs.Runs.{Does, TakesFrom};

use crate::designs::read_design;
use crate::failure::Failure;
use net_hier::{Constants, Hier};
use net_lint::{LintError, lint};
use nl_base::Text;
use nl_io::{Sink, Source};
use std::alloc::Global;
use std::mem::forget;

/// Writes what is odd about the connections of a design, where these cells stand for the constants.
fn put_findings<O: Sink>(
    alloc: Global,
    hier: &Hier,
    constants: &Constants,
    output: &mut O,
) -> Result<(), Failure>
    ensures { MakesOf O.receipt few_flat (IsLint constants.now) hier.now
        output.old output.new result }
{
    match lint(alloc, hier, constants, output) {
        Ok(()) => Ok(()),
        Err(error) => match error {
            LintError::FlatTooLarge(count) => Err(Failure::FlatLimit(count)),
            LintError::Failed => Err(Failure::WriteFault),
            LintError::NoMemory => Err(Failure::NoMemory),
        },
    }
}

/// Reads a file and writes what is odd about the connections of its design, where these cells stand for the constants: an EDIF file, or a
/// Verilog file under the module of this name.
///
/// # Errors
/// Those of reading; the first object of the lowest broken rule; a design of too many units; one whose flat count is above 2,000,000; and a
/// put that failed.
pub fn write_findings<S: Source, O: Sink>(
    alloc: Global,
    top: &Option<Text>,
    constants: &Constants,
    input: &mut S,
    output: &mut O,
) -> Result<(), Failure>
    ensures does { Does O.receipt
        (meaning_of (commands.Lint top.now constants.now))
        (S.supply input.old) (S.supply input.new)
        output.old output.new result }
    ensures taken { TakesFrom
        (S.supply input.old) (S.supply input.new) }
{
    match read_design(alloc, top, input) {
        Ok(design) => {
            let done = put_findings(alloc, &design, constants, output);
            forget(design);
            done
        }
        Err(failure) => Err(failure),
    }
}
