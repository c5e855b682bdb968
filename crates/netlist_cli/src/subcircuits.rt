ghost use Rattle.netlist_words.specs.declared.command.Command.TheVariants as commands;
ghost use Rattle.netlist_cli.specs.Designs.{MakesOf};
ghost use Rattle.netlist_cli.specs.Meanings.{IsSpiceOf, meaning_of, spice_rules};
ghost use Rattle.netlist_cli.specs.Runs.{Does, TakesFrom};

use crate::designs::read_design;
use crate::failure::{Failure, after_writing};
use crate::tools::{ToolRefusal, ToolRule};
use net_hier::Hier;
use nl_base::Text;
use nl_io::{Sink, Source};
use spice_text::write_spice;
use std::alloc::Global;
use std::mem::forget;
use to_spice::{SpiceError, to_spice};

/// Writes a design as SPICE subcircuits.
fn put_subcircuits<O: Sink>(alloc: Global, hier: &Hier, output: &mut O) -> Result<(), Failure>
    ensures { MakesOf O.receipt spice_rules IsSpiceOf hier.now
        output.old output.new result }
{
    match to_spice(alloc, hier) {
        Ok(file) => {
            let written = write_spice(&file, output);
            forget(file);
            after_writing(written)
        }
        Err(error) => match error {
            SpiceError::Refused { rule, cell, names } => Err(Failure::RefusedByTool(ToolRefusal {
                rule: ToolRule::Spice(rule),
                cell,
                names,
            })),
            SpiceError::NoMemory => Err(Failure::NoMemory),
        },
    }
}

/// Reads a file and writes its design as SPICE subcircuits: an EDIF file, or a Verilog file under the module of this name.
///
/// # Errors
/// Those of reading; the first object of the lowest rule of the language, or else of SPICE, that is broken; a design of too many units; and a
/// put that failed.
pub fn write_subcircuits<S: Source, O: Sink>(
    alloc: Global,
    top: &Option<Text>,
    input: &mut S,
    output: &mut O,
) -> Result<(), Failure>
    ensures does { Does O.receipt (meaning_of (commands.ToSpice top.now))
        (S.supply input.old) (S.supply input.new)
        output.old output.new result }
    ensures taken { TakesFrom
        (S.supply input.old) (S.supply input.new) }
{
    match read_design(alloc, top, input) {
        Ok(design) => {
            let done = put_subcircuits(alloc, &design, output);
            forget(design);
            done
        }
        Err(failure) => Err(failure),
    }
}
