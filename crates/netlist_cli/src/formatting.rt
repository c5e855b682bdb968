ghost use Rattle.netlist_words.specs.declared.command.Command.TheVariants as commands;
ghost use Rattle.netlist_cli.specs.Meanings.{meaning_of};
ghost use Rattle.netlist_cli.specs.Runs.{Does, TakesFrom};

use crate::failure::{Failure, after_writing};
use edif_format::format_edif;
use nl_io::{Sink, Source, put_all};
use std::alloc::Global;
use vlog_format::format_vlog;

/// Reads an EDIF file and writes its text, which is made as its parts are read, so that no more than one of them is kept.
pub fn format<S: Source, O: Sink>(
    alloc: Global,
    input: &mut S,
    output: &mut O,
) -> Result<(), Failure>
    ensures does { Does O.receipt (meaning_of commands.Format)
        (S.supply input.old) (S.supply input.new)
        output.old output.new result }
    ensures taken { TakesFrom
        (S.supply input.old) (S.supply input.new) }
{
    match format_edif(alloc, input) {
        Ok(text) => {
            let written = put_all(output, text.as_slice());
            after_writing(written)
        }
        Err(error) => Err(Failure::of_read_error(error)),
    }
}

/// Reads a Verilog file and writes its text, which is made as its modules are read, so that no more than one of them is kept.
pub fn vformat<S: Source, O: Sink>(
    alloc: Global,
    input: &mut S,
    output: &mut O,
) -> Result<(), Failure>
    ensures does { Does O.receipt (meaning_of commands.Vformat)
        (S.supply input.old) (S.supply input.new)
        output.old output.new result }
    ensures taken { TakesFrom
        (S.supply input.old) (S.supply input.new) }
{
    match format_vlog(alloc, input) {
        Ok(text) => {
            let written = put_all(output, text.as_slice());
            after_writing(written)
        }
        Err(error) => Err(Failure::of_read_error(error)),
    }
}
