ghost use Rattle.edif_plans.specs.Sound.{IsSoundDesign};
ghost use Rattle.netlist_words.specs.declared.command.Command.TheVariants as commands;
ghost use Rattle.netlist_cli.specs.Designs.{MakesOf};
ghost use Rattle.netlist_cli.specs.Meanings.{IsEdifOf, any_design, meaning_of};
ghost use Rattle.netlist_cli.specs.Runs.{Does, TakesFrom};

use crate::designs::read_design_under;
use crate::failure::{Failure, after_writing};
use edif_writer::write_edif;
use net_hier::{Constants, Hier};
use nl_base::{NoMemory, Text};
use nl_io::{Sink, Source};
use std::alloc::Global;
use std::mem::forget;
use to_edif::to_edif;

/// Writes a design in EDIF, where these cells stand for the constants.
fn put_edif<O: Sink>(
    alloc: Global,
    hier: Hier,
    constants: &Constants,
    output: &mut O,
) -> Result<(), Failure>
    requires { IsSoundDesign hier }
    ensures { MakesOf O.receipt any_design (IsEdifOf constants.now) hier
        output.old output.new result }
{
    match to_edif(alloc, hier, constants) {
        Ok(file) => {
            let written = write_edif(&file, output);
            forget(file);
            after_writing(written)
        }
        Err(NoMemory) => Err(Failure::NoMemory),
    }
}

/// Reads a Verilog file and writes the design under the module of this name in EDIF, where these cells stand for the constants.
///
/// # Errors
/// Those of reading; the first object of the lowest broken rule of Verilog; a design of too many units; and a put that failed.
pub fn translate_back<S: Source, O: Sink>(
    alloc: Global,
    top: &Text,
    constants: &Constants,
    input: &mut S,
    output: &mut O,
) -> Result<(), Failure>
    ensures does { Does O.receipt
        (meaning_of (commands.ToEdif top.now constants.now))
        (S.supply input.old) (S.supply input.new)
        output.old output.new result }
    ensures taken { TakesFrom
        (S.supply input.old) (S.supply input.new) }
{
    match read_design_under(alloc, top, input) {
        Ok(design) => {
            let done = put_edif(alloc, design, constants, output);
            done
        }
        Err(failure) => Err(failure),
    }
}
