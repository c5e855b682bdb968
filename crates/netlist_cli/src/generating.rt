ghost use Rattle.std.specs.Prelude.{◌≡◌, ◌<◌, ◌≤◌, None, IfOk};
ghost use Rattle.edif_resolve.specs.Answers.{IsDesignOf};
ghost use Rattle.net_bits.specs.Names.{has_name};
ghost use Rattle.net_values.specs.Sound.{IsSound};
ghost use Rattle.nl_output.specs.Writing.{Writes};
ghost use Rattle.nl_io.specs.Sources.{Supply};
ghost use Rattle.to_verilog.specs.Answers.{IsTranslated};
ghost use Rattle.to_verilog_rules.specs.Rules.{first_V};
ghost use Rattle.vectors.specs.Files.{generated};
ghost use Rattle.vectors_line.specs.Lines.{no_params};
ghost use Rattle.vlog_values.specs.Values.{IsVlogValue};
ghost use Rattle.netlist_words.specs.declared.command.Command.TheVariants as commands;
ghost use Rattle.netlist_cli.specs.Generated.{IsGeneratedLine};
ghost use Rattle.netlist_cli.specs.Meanings.{meaning_of};
ghost use Rattle.netlist_cli.specs.Runs.{Does, EndsUnread};

use crate::failure::{Failure, after_writing};
use net_bits::Names;
use net_hier::Hier;
use nl_base::{NoMemory, Text};
use nl_io::{Failed, Sink};
use nl_output::Output;
use std::alloc::Global;
use to_verilog::{TargetError, to_verilog};
use vectors_line::{generated_design, generated_line};
use vlog_values::VlogFile;

/// The modules of a design that breaks no rule of Verilog as a target.
fn modules_of(alloc: Global, design: &Hier) -> Result<VlogFile, NoMemory>
    requires rules { first_V design.now.cells design.now.top design.now.props (has_name no_params)
        ≡ None }
    requires sound { IsSound design.now }
    ensures translated { IfOk result (IsTranslated design.now no_params) }
    ensures value { IfOk result IsVlogValue }
{
    let params = Names::new(alloc, false);
    match to_verilog(alloc, design, &params) {
        Ok(modules) => Ok(modules),
        Err(error) => match error {
            TargetError::Refused(_) => unreachable!(),
            TargetError::NoMemory => Err(NoMemory),
        },
    }
}

/// The modules of the design of the generated file.
#[tactic(auto, using(vectors_line::proofs::Generated::target_clean, vectors_line::proofs::Generated::design_sound))]
fn generated_modules(
    alloc: Global,
    seed: u64,
    cells: u32,
    design: &Hier,
) -> Result<VlogFile, NoMemory>
    requires some { 0 < cells }
    requires design { IsDesignOf (generated seed cells) design.now }
    ensures translated { IfOk result (IsTranslated design.now no_params) }
    ensures value { IfOk result IsVlogValue }
{
    let modules = modules_of(alloc, design)?;
    Ok(modules)
}

/// The line of the generated file of a seed and so many cells: the file is written to memory, read again, resolved and translated.
fn line_of_generated(alloc: Global, seed: u64, cells: u32) -> Result<Text, NoMemory>
    requires some { 0 < cells }
    requires few { cells ≤ 100000 }
    ensures { IfOk result (IsGeneratedLine seed cells) }
{
    let design = generated_design(alloc, seed, cells)?;
    let modules = generated_modules(alloc, seed, cells, &design)?;
    let line = generated_line(alloc, seed, cells, &modules)?;
    Ok(line)
}

/// Puts a text.
fn put_text<O: Sink>(text: &Text, sink: &mut O) -> Result<(), Failed>
    ensures { Writes O.receipt sink.old sink.new text.now result }
{
    let mut output = Output::new();
    output.put(text.bytes(), sink);
    let result = output.finish(sink);
    result
}

/// Generates the file of this seed and so many cells, and writes its line. It reads nothing.
pub fn write_generated<O: Sink>(
    alloc: Global,
    seed: u64,
    cells: u32,
    output: &mut O,
) -> Result<(), Failure>
    requires some { 2 ≤ cells }
    requires few { cells ≤ 100000 }
    ensures does { (i : Supply) → Does O.receipt
        (meaning_of (commands.Generate seed cells)) i i output.old output.new result }
    ensures ends { EndsUnread result }
{
    match line_of_generated(alloc, seed, cells) {
        Ok(line) => {
            let written = put_text(&line, output);
            after_writing(written)
        }
        Err(_) => Err(Failure::NoMemory),
    }
}
