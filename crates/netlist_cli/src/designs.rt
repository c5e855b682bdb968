// The design of an input, as the commands that ask for one get it.
ghost use Rattle.std.specs.Prelude.{◌≡◌, ◌≤◌, IfOk, MatchResult, None, Some};
ghost use Rattle.net_hier.specs.Valid.{count_limit};
ghost use Rattle.edif_values.specs.Sizes.{edif_size};
ghost use Rattle.edif_plans.specs.Sound.{IsSoundDesign};
ghost use Rattle.edif_resolve.specs.Answers.{IsDesignOf as IsEdifDesign};
ghost use Rattle.vlog_elab.specs.Answers.{IsDesignOf as IsVlogDesign};
ghost use Rattle.vlog_values.specs.Sizes.{vlog_size};
ghost use Rattle.vlog_values.specs.Values.{IsVlogValue};
ghost use Rattle.netlist_cli.specs.Designs.{IsDesignRead, IsNoDesign, IsWithinLimits};
ghost use Rattle.netlist_cli.specs.Meanings.{edif_first, verilog_first};
ghost use Rattle.netlist_cli.specs.Runs.{IsFailureOf, TakesFrom};

use crate::failure::Failure;
use edif_library::{EdifFile, read_edif};
use edif_resolve::{ResolveError as EdifError, resolve};
use net_hier::Hier;
use nl_base::Text;
use nl_io::Source;
use std::alloc::Global;
use vlog_elab::{ResolveError as VlogError, elaborate};
use vlog_modules::read_vlog;
use vlog_values::VlogFile;

/// The design of an EDIF file, or why it has none.
fn design_of(alloc: Global, file: &EdifFile) -> Result<Hier, Failure>
    requires { edif_size file.now ≤ count_limit }
    ensures { MatchResult result (IsEdifDesign file.now)
        (IsFailureOf (λ verdict. edif_first file.now ≡ Some verdict)) }
{
    match resolve(alloc, file) {
        Ok(design) => Ok(design),
        Err(error) => match error {
            EdifError::Refused(refusal) => Err(Failure::Refused(refusal)),
            EdifError::TooBig(units) => Err(Failure::DesignLimit(units)),
            EdifError::NoMemory => Err(Failure::NoMemory),
        },
    }
}

/// The design of a Verilog file under the module of this name, or why it has none.
fn design_under(alloc: Global, file: VlogFile, top: &Text) -> Result<Hier, Failure>
    requires value { IsVlogValue file }
    requires small { vlog_size file ≤ count_limit }
    ensures { MatchResult result (IsVlogDesign file top.now)
        (IsFailureOf (λ verdict. verilog_first top.now file ≡ Some verdict)) }
{
    match elaborate(alloc, file, top) {
        Ok(design) => Ok(design),
        Err(error) => match error {
            VlogError::Refused(refusal) => Err(Failure::Refused(refusal)),
            VlogError::TooBig(units) => Err(Failure::DesignLimit(units)),
            VlogError::NoMemory => Err(Failure::NoMemory),
        },
    }
}

/// Reads an EDIF file and gets its design.
pub fn read_edif_design<S: Source>(alloc: Global, input: &mut S) -> Result<Hier, Failure>
    ensures reads { MatchResult result
        (IsDesignRead None (S.supply input.old) (S.supply input.new))
        (IsNoDesign None (S.supply input.old) (S.supply input.new)) }
    ensures within { IfOk result IsWithinLimits }
    ensures taken { TakesFrom
        (S.supply input.old) (S.supply input.new) }
{
    match read_edif(alloc, input) {
        Ok(file) => {
            let found = design_of(alloc, &file);
            found
        }
        Err(error) => Err(Failure::of_read_error(error)),
    }
}

/// Reads a Verilog file and gets its design under the module of this name.
pub fn read_design_under<S: Source>(
    alloc: Global,
    top: &Text,
    input: &mut S,
) -> Result<Hier, Failure>
    ensures reads { MatchResult result
        (IsDesignRead (Some top.now)
        (S.supply input.old) (S.supply input.new))
        (IsNoDesign (Some top.now)
        (S.supply input.old) (S.supply input.new)) }
    ensures sound { IfOk result IsSoundDesign }
    ensures within { IfOk result IsWithinLimits }
    ensures taken { TakesFrom
        (S.supply input.old) (S.supply input.new) }
{
    match read_vlog(alloc, input) {
        Ok(file) => design_under(alloc, file, top),
        Err(error) => Err(Failure::of_read_error(error)),
    }
}

/// Reads a file and gets its design: an EDIF file, or a Verilog file under the module of this name.
pub fn read_design<S: Source>(
    alloc: Global,
    top: &Option<Text>,
    input: &mut S,
) -> Result<Hier, Failure>
    ensures reads { MatchResult result
        (IsDesignRead top.now
        (S.supply input.old) (S.supply input.new))
        (IsNoDesign top.now
        (S.supply input.old) (S.supply input.new)) }
    ensures taken { TakesFrom
        (S.supply input.old) (S.supply input.new) }
{
    match top {
        None => read_edif_design(alloc, input),
        Some(top) => read_design_under(alloc, top, input),
    }
}
