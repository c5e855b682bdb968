ghost use Rattle.flat_report.specs.Report.{IsReport};
ghost use Rattle.netlist_words.specs.declared.command.Command.TheVariants as commands;
ghost use Rattle.netlist_cli.specs.Designs.{MakesOf};
ghost use Rattle.netlist_cli.specs.Meanings.{few_flat, meaning_of};
ghost use Rattle.netlist_cli.specs.Runs.{Does, TakesFrom};

use crate::designs::read_design;
use crate::failure::Failure;
use flat_report::{ReportError, report};
use net_hier::{Constants, Hier};
use nl_base::Text;
use nl_io::{Sink, Source};
use std::alloc::Global;
use std::mem::forget;

/// Writes the report of a design, where these cells stand for the constants.
fn put_report<O: Sink>(
    alloc: Global,
    hier: &Hier,
    constants: &Constants,
    output: &mut O,
) -> Result<(), Failure>
    ensures { MakesOf O.receipt few_flat (IsReport constants.now) hier.now
        output.old output.new result }
{
    match report(alloc, hier, constants, output) {
        Ok(()) => Ok(()),
        Err(error) => match error {
            ReportError::FlatTooLarge(count) => Err(Failure::FlatLimit(count)),
            ReportError::Failed => Err(Failure::WriteFault),
            ReportError::NoMemory => Err(Failure::NoMemory),
        },
    }
}

/// Reads a file and writes the report of its design, where these cells stand for the constants: an EDIF file, or a Verilog file under the
/// module of this name.
///
/// # Errors
/// Those of reading; the first object of the lowest broken rule; a design of too many units; one whose flat count is above 2,000,000; and a
/// put that failed.
pub fn write_report<S: Source, O: Sink>(
    alloc: Global,
    top: &Option<Text>,
    constants: &Constants,
    input: &mut S,
    output: &mut O,
) -> Result<(), Failure>
    ensures does { Does O.receipt
        (meaning_of (commands.Report top.now constants.now))
        (S.supply input.old) (S.supply input.new)
        output.old output.new result }
    ensures taken { TakesFrom
        (S.supply input.old) (S.supply input.new) }
{
    match read_design(alloc, top, input) {
        Ok(design) => {
            let done = put_report(alloc, &design, constants, output);
            forget(design);
            done
        }
        Err(failure) => Err(failure),
    }
}
