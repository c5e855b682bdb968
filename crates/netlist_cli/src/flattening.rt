ghost use Rattle.std.specs.Prelude.{◌≡◌, IfOk, MatchResult, None, Some};
ghost use Rattle.net_flatten_fits.specs.Named.{CanBeWritten};
ghost use Rattle.netlist_words.specs.declared.command.Command.TheVariants as commands;
ghost use Rattle.netlist_cli.specs.Designs.{AreFlatModules, IsFileFor, IsFlatFile, IsFlatOf, IsNotFlattened, IsWithinLimits, MakesOf};
ghost use Rattle.netlist_cli.specs.Meanings.{IsFlatEdifOf, IsFlatVerilogOf, any_design, flat_rules, meaning_of, plain_target};
ghost use Rattle.netlist_cli.specs.Runs.{Does, IsFailureOf, TakesFrom};

use crate::designs::{read_design_under, read_edif_design};
use crate::failure::{Failure, after_writing};
use crate::tools::{ToolRefusal, ToolRule};
use crate::translating::modules_under;
use edif_library::EdifFile;
use edif_writer::write_edif;
use net_flatten::{FlattenError, flatten};
use net_hier::{Constants, Hier};
use nl_base::{NoMemory, Seq, Text};
use nl_io::{Sink, Source};
use std::alloc::Global;
use std::mem::forget;
use to_edif::to_edif;
use vlog_values::VlogFile;
use vlog_writer::write_vlog;

/// The flattened design of a design, where these cells stand for the constants, or why there is none.
fn flat_design(alloc: Global, hier: &Hier, constants: &Constants) -> Result<Hier, Failure>
    requires { IsWithinLimits hier.now }
    ensures flat { MatchResult result (IsFlatOf constants.now hier.now)
        (IsNotFlattened constants.now hier.now) }
    ensures fits { IfOk result CanBeWritten }
{
    let _cells = hier.cells();
    match flatten(alloc, hier, constants) {
        Ok(flat) => Ok(flat),
        Err(error) => match error {
            FlattenError::FlatTooLarge(count) => Err(Failure::FlatLimit(count)),
            FlattenError::Refused { rule, cell, names } => {
                Err(Failure::RefusedByTool(ToolRefusal {
                    rule: ToolRule::Flatten(rule),
                    cell,
                    names,
                }))
            }
            FlattenError::NoMemory => Err(Failure::NoMemory),
        },
    }
}

/// The EDIF file of a flattened design.
fn edif_of(alloc: Global, flat: Hier, constants: &Constants) -> Result<EdifFile, NoMemory>
    requires { CanBeWritten flat }
    ensures { IfOk result (IsFileFor constants.now flat) }
{
    let _cells = flat.cells();
    let file = to_edif(alloc, flat, constants)?;
    Ok(file)
}

/// The EDIF file of the flattened design of a design.
fn flat_file(alloc: Global, hier: &Hier, constants: &Constants) -> Result<EdifFile, Failure>
    requires { IsWithinLimits hier.now }
    ensures { MatchResult result (IsFlatFile constants.now hier.now)
        (IsFailureOf (flat_rules constants.now any_design
        hier.now.cells hier.now.top hier.now.props)) }
{
    match flat_design(alloc, hier, constants) {
        Ok(flat) => match edif_of(alloc, flat, constants) {
            Ok(file) => Ok(file),
            Err(NoMemory) => Err(Failure::NoMemory),
        },
        Err(failure) => Err(failure),
    }
}

/// Writes the flattened design of a design in EDIF.
fn put_flat_edif<O: Sink>(
    alloc: Global,
    hier: &Hier,
    constants: &Constants,
    output: &mut O,
) -> Result<(), Failure>
    requires { IsWithinLimits hier.now }
    ensures { MakesOf O.receipt (flat_rules constants.now any_design)
        (IsFlatEdifOf constants.now) hier.now output.old output.new result }
{
    let _names = constants.zero();
    match flat_file(alloc, hier, constants) {
        Ok(file) => {
            let written = write_edif(&file, output);
            forget(file);
            after_writing(written)
        }
        Err(failure) => Err(failure),
    }
}

/// The modules of the flattened design of a design, without names of parameters.
fn flat_modules(alloc: Global, hier: &Hier, constants: &Constants) -> Result<VlogFile, Failure>
    requires { IsWithinLimits hier.now }
    ensures { MatchResult result (AreFlatModules constants.now hier.now)
        (IsFailureOf (flat_rules constants.now plain_target
        hier.now.cells hier.now.top hier.now.props)) }
{
    match flat_design(alloc, hier, constants) {
        Ok(flat) => {
            let _cells = flat.cells();
            let names = Seq::empty(alloc);
            let made = modules_under(alloc, &flat, &names);
            made
        }
        Err(failure) => Err(failure),
    }
}

/// Writes the flattened design of a design in Verilog.
fn put_flat_verilog<O: Sink>(
    alloc: Global,
    hier: &Hier,
    constants: &Constants,
    output: &mut O,
) -> Result<(), Failure>
    requires { IsWithinLimits hier.now }
    ensures { MakesOf O.receipt (flat_rules constants.now plain_target)
        (IsFlatVerilogOf constants.now) hier.now output.old output.new result }
{
    let _names = constants.zero();
    match flat_modules(alloc, hier, constants) {
        Ok(modules) => {
            let written = write_vlog(&modules, output);
            forget(modules);
            after_writing(written)
        }
        Err(failure) => Err(failure),
    }
}

/// Reads an EDIF file and writes its flattened design in EDIF.
fn flatten_edif<S: Source, O: Sink>(
    alloc: Global,
    constants: &Constants,
    input: &mut S,
    output: &mut O,
) -> Result<(), Failure>
    ensures does { Does O.receipt
        (meaning_of (commands.Flatten None constants.now))
        (S.supply input.old) (S.supply input.new)
        output.old output.new result }
    ensures taken { TakesFrom
        (S.supply input.old) (S.supply input.new) }
{
    match read_edif_design(alloc, input) {
        Ok(design) => {
            let done = put_flat_edif(alloc, &design, constants, output);
            forget(design);
            done
        }
        Err(failure) => Err(failure),
    }
}

/// Reads a Verilog file and writes the flattened design of the module of this name in Verilog.
fn flatten_verilog<S: Source, O: Sink>(
    alloc: Global,
    top: &Text,
    constants: &Constants,
    input: &mut S,
    output: &mut O,
) -> Result<(), Failure>
    ensures does { Does O.receipt
        (meaning_of (commands.Flatten (Some top.now) constants.now))
        (S.supply input.old) (S.supply input.new)
        output.old output.new result }
    ensures taken { TakesFrom
        (S.supply input.old) (S.supply input.new) }
{
    match read_design_under(alloc, top, input) {
        Ok(design) => {
            let done = put_flat_verilog(alloc, &design, constants, output);
            forget(design);
            done
        }
        Err(failure) => Err(failure),
    }
}

/// Reads a file and writes its design as one cell of leaf instances, where these cells stand for the constants: an EDIF file in EDIF, or a
/// Verilog file in Verilog, under the module of this name.
///
/// # Errors
/// Those of reading; the first object of the lowest broken rule of the language, of flattened designs, or, for Verilog, of the target; a
/// design of too many units; one whose flat count is above 2,000,000; and a put that failed.
pub fn write_flattened<S: Source, O: Sink>(
    alloc: Global,
    top: &Option<Text>,
    constants: &Constants,
    input: &mut S,
    output: &mut O,
) -> Result<(), Failure>
    ensures does { Does O.receipt
        (meaning_of (commands.Flatten top.now constants.now))
        (S.supply input.old) (S.supply input.new)
        output.old output.new result }
    ensures taken { TakesFrom
        (S.supply input.old) (S.supply input.new) }
{
    match top {
        None => {
            let done = flatten_edif(alloc, constants, input, output);
            done
        }
        Some(top) => {
            let done = flatten_verilog(alloc, top, constants, input, output);
            done
        }
    }
}
