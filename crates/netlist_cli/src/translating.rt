ghost use Rattle.std.specs.Prelude.{◌≡◌, IfOk, MatchResult};
ghost use Rattle.net_values.specs.Sound.{IsSound};
ghost use Rattle.netlist_words.specs.declared.command.Command.TheVariants as commands;
ghost use Rattle.netlist_cli.specs.Designs.{AreModulesFor, MakesOf};
ghost use Rattle.netlist_cli.specs.Meanings.{IsVerilogOf, meaning_of, params_of, target_rules};
ghost use Rattle.netlist_cli.specs.Runs.{Does, IsFailureOf, TakesFrom};

use crate::designs::read_edif_design;
use crate::failure::{Failure, after_writing};
use net_bits::Names;
use net_hier::Hier;
use nl_base::{NoMemory, Seq, Text};
use nl_io::{Sink, Source};
use std::alloc::Global;
use std::mem::forget;
use to_verilog::{TargetError, to_verilog};
use vlog_values::VlogFile;
use vlog_writer::write_vlog;

/// The set of these names of parameters, told apart byte for byte.
fn params_of(alloc: Global, names: &Seq<Text>) -> Result<Names, NoMemory>
    ensures { IfOk result (λ set. set ≡ params_of names.now) }
{
    let mut set = Names::new(alloc, false);
    let mut left = names.items();
    while let [name, rest @ ..] = left {
        set.add(alloc, name.bytes())?;
        left = rest;
    }
    Ok(set)
}

/// The modules of a design, or why there are none.
///
/// # Errors
/// The first object of the lowest rule of the target that the design breaks.
fn modules_of(alloc: Global, hier: &Hier, params: &Names) -> Result<VlogFile, Failure>
    requires { IsSound hier.now }
    ensures { MatchResult result (AreModulesFor hier.now params.now) (IsFailureOf
        (target_rules params.now hier.now.cells hier.now.top hier.now.props)) }
{
    match to_verilog(alloc, hier, params) {
        Ok(modules) => Ok(modules),
        Err(error) => match error {
            TargetError::Refused(refusal) => Err(Failure::Refused(refusal)),
            TargetError::NoMemory => Err(Failure::NoMemory),
        },
    }
}

/// The same, where these are the names of parameters.
pub fn modules_under(alloc: Global, hier: &Hier, names: &Seq<Text>) -> Result<VlogFile, Failure>
    requires { IsSound hier.now }
    ensures { MatchResult result (AreModulesFor hier.now (params_of names.now)) (IsFailureOf
        (target_rules (params_of names.now) hier.now.cells hier.now.top hier.now.props)) }
{
    match params_of(alloc, names) {
        Ok(params) => {
            let made = modules_of(alloc, hier, &params);
            made
        }
        Err(NoMemory) => Err(Failure::NoMemory),
    }
}

/// Writes a design in Verilog. Properties of instances with one of these names are written as parameters.
fn put_verilog<O: Sink>(
    alloc: Global,
    hier: &Hier,
    names: &Seq<Text>,
    output: &mut O,
) -> Result<(), Failure>
    requires { IsSound hier.now }
    ensures { MakesOf O.receipt (target_rules (params_of names.now)) IsVerilogOf
        hier.now output.old output.new result }
{
    match modules_under(alloc, hier, names) {
        Ok(modules) => {
            let written = write_vlog(&modules, output);
            forget(modules);
            after_writing(written)
        }
        Err(failure) => Err(failure),
    }
}

/// Reads an EDIF file and writes its design in Verilog. Properties of instances with one of these names are written as parameters.
///
/// # Errors
/// Those of reading; the first object of the lowest rule of EDIF, or else of Verilog as a target, that is broken; a design of too many units;
/// and a put that failed.
pub fn translate<S: Source, O: Sink>(
    alloc: Global,
    names: &Seq<Text>,
    input: &mut S,
    output: &mut O,
) -> Result<(), Failure>
    ensures does { Does O.receipt (meaning_of (commands.ToVerilog names.now))
        (S.supply input.old) (S.supply input.new)
        output.old output.new result }
    ensures taken { TakesFrom
        (S.supply input.old) (S.supply input.new) }
{
    match read_edif_design(alloc, input) {
        Ok(design) => {
            let done = put_verilog(alloc, &design, names, output);
            forget(design);
            done
        }
        Err(failure) => Err(failure),
    }
}
