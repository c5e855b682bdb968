// The translation.
ghost use Rattle.std.specs.Prelude.{◌≡◌, None, IfOk, MatchResult};
ghost use Rattle.net_bits.specs.Names.{has_name};
ghost use Rattle.net_values.specs.Sound.{IsSound};
ghost use Rattle.to_verilog_rules.specs.Rules.{first_V};
ghost use Rattle.to_verilog.specs.Answers.{IsTargetFault, IsTranslated};
ghost use Rattle.vlog_values.specs.Values.{IsVlogValue};

use crate::modules::module_of;
use net_bits::Names;
use net_hier::Hier;
use nl_base::{NoMemory, Refusal, Seq};
use std::alloc::Global;
use to_verilog_rules::first_refusal;
use vlog_values::VlogFile;

/// Why a design is not translated.
#[derive(Drop)]
pub enum TargetError {
    /// The first object of the lowest rule that the design breaks.
    Refused(Refusal),
    NoMemory,
}

/// The file of a design that breaks no rule: the modules of its cells, in its order.
fn file_of(alloc: Global, hier: &Hier, params: &Names) -> Result<VlogFile, NoMemory>
    requires { first_V hier.now.cells hier.now.top hier.now.props (has_name params.now) ≡ None }
    ensures translated { IfOk result (IsTranslated hier.now params.now) }
    ensures value { IfOk result (λ file. IsSound hier.now → IsVlogValue file) }
{
    let order = hier.order();
    let mut modules = Seq::empty(alloc);
    for number in order {
        let module = module_of(alloc, hier, *number, params)?;
        modules.push(module)?;
    }
    Ok(VlogFile { modules })
}

/// The design as a Verilog file. The properties of instances whose names are among `params` are parameters.
pub fn to_verilog(alloc: Global, hier: &Hier, params: &Names) -> Result<VlogFile, TargetError>
    ensures translated { MatchResult result (IsTranslated hier.now params.now)
        (IsTargetFault hier.now params.now) }
    ensures value { IfOk result (λ file. IsSound hier.now → IsVlogValue file) }
{
    match first_refusal(alloc, hier, params) {
        Ok(None) => match file_of(alloc, hier, params) {
            Ok(file) => Ok(file),
            Err(NoMemory) => Err(TargetError::NoMemory),
        },
        Ok(Some(refusal)) => Err(TargetError::Refused(refusal)),
        Err(NoMemory) => Err(TargetError::NoMemory),
    }
}
