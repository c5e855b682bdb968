// Whether an input has a design, for the command that asks nothing more of one. No design of a Verilog file is made, and none of an EDIF
// file that shows one without its cells.
ghost use Rattle.std.specs.Prelude.{◌≡◌, ◌≤◌, MatchResult, None, Some};
ghost use Rattle.net_hier.specs.Valid.{count_limit};
ghost use Rattle.edif_resolve.specs.Answers.{HasDesign as HasEdifDesign};
ghost use Rattle.edif_values.specs.Sizes.{edif_size};
ghost use Rattle.vlog_elab.specs.Answers.{HasDesign as HasVlogDesign};
ghost use Rattle.vlog_values.specs.Sizes.{vlog_size};
ghost use Rattle.vlog_values.specs.Values.{IsVlogValue};
ghost use Rattle.netlist_cli.specs.Designs.{IsNoDesign, ReadsDesign};
ghost use Rattle.netlist_cli.specs.Meanings.{edif_first, verilog_first};
ghost use Rattle.netlist_cli.specs.Runs.{IsFailureOf, TakesFrom};

use crate::failure::Failure;
use edif_library::{EdifFile, read_edif};
use edif_resolve::ResolveError as EdifError;
use nl_base::Text;
use nl_io::Source;
use std::alloc::Global;
use std::mem::forget;
use vlog_elab::ResolveError as VlogError;
use vlog_modules::read_vlog;
use vlog_values::VlogFile;

/// Whether an EDIF file has a design, or why it has none.
fn judge_edif(alloc: Global, file: &EdifFile) -> Result<(), Failure>
    requires { edif_size file.now ≤ count_limit }
    ensures { MatchResult result (λ done. HasEdifDesign file.now)
        (IsFailureOf (λ verdict. edif_first file.now ≡ Some verdict)) }
{
    match edif_resolve::check(alloc, file) {
        Ok(()) => Ok(()),
        Err(error) => match error {
            EdifError::Refused(refusal) => Err(Failure::Refused(refusal)),
            EdifError::TooBig(units) => Err(Failure::DesignLimit(units)),
            EdifError::NoMemory => Err(Failure::NoMemory),
        },
    }
}

/// Whether a Verilog file has a design under the module of this name, or why it has none.
fn judge_under(alloc: Global, file: &VlogFile, top: &Text) -> Result<(), Failure>
    requires value { IsVlogValue file.now }
    requires small { vlog_size file.now ≤ count_limit }
    ensures { MatchResult result (λ done. HasVlogDesign file.now top.now)
        (IsFailureOf (λ verdict. verilog_first top.now file.now ≡ Some verdict)) }
{
    match vlog_elab::check(alloc, file, top) {
        Ok(()) => Ok(()),
        Err(error) => match error {
            VlogError::Refused(refusal) => Err(Failure::Refused(refusal)),
            VlogError::TooBig(units) => Err(Failure::DesignLimit(units)),
            VlogError::NoMemory => Err(Failure::NoMemory),
        },
    }
}

/// Reads a Verilog file and tells whether it has a design under the module of this name.
fn judge_text_under<S: Source>(alloc: Global, top: &Text, input: &mut S) -> Result<(), Failure>
    ensures reads { MatchResult result
        (λ done. ReadsDesign (Some top.now)
        (S.supply input.old) (S.supply input.new))
        (IsNoDesign (Some top.now)
        (S.supply input.old) (S.supply input.new)) }
    ensures taken { TakesFrom
        (S.supply input.old) (S.supply input.new) }
{
    match read_vlog(alloc, input) {
        Ok(file) => {
            let judged = judge_under(alloc, &file, top);
            judged
        }
        Err(error) => Err(Failure::of_read_error(error)),
    }
}

/// Reads an EDIF file and tells whether it has a design.
fn judge_edif_text<S: Source>(alloc: Global, input: &mut S) -> Result<(), Failure>
    ensures reads { MatchResult result
        (λ done. ReadsDesign None
        (S.supply input.old) (S.supply input.new))
        (IsNoDesign None (S.supply input.old) (S.supply input.new)) }
    ensures taken { TakesFrom
        (S.supply input.old) (S.supply input.new) }
{
    match read_edif(alloc, input) {
        Ok(file) => {
            let judged = judge_edif(alloc, &file);
            // The program ends then. To take it apart again would take time for nothing.
            forget(file);
            judged
        }
        Err(error) => Err(Failure::of_read_error(error)),
    }
}

/// Reads a file and tells whether it has a design: an EDIF file, or a Verilog file under the module of this name.
pub fn judge_text<S: Source>(
    alloc: Global,
    top: &Option<Text>,
    input: &mut S,
) -> Result<(), Failure>
    ensures reads { MatchResult result
        (λ done. ReadsDesign top.now
        (S.supply input.old) (S.supply input.new))
        (IsNoDesign top.now
        (S.supply input.old) (S.supply input.new)) }
    ensures taken { TakesFrom
        (S.supply input.old) (S.supply input.new) }
{
    match top {
        None => judge_edif_text(alloc, input),
        Some(top) => judge_text_under(alloc, top, input),
    }
}
