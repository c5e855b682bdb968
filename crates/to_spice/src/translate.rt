// The translation.
ghost use Rattle.std.specs.Prelude.{IfOk, MatchResult};
ghost use Rattle.to_spice.specs.Answers.{IsSpiceFault, IsSpiceFor};
ghost use Rattle.to_spice_rules.specs.Answers.{KeepsRules};

use crate::subckts::subckt_of;
use net_hier::Hier;
use nl_base::{NoMemory, Seq, Text};
use spice_text::SpiceFile;
use std::alloc::Global;
use to_spice_rules::{SpiceRefusal, SpiceRule, first_refusal};

/// Why a design has no SPICE text.
#[derive(Drop)]
pub enum SpiceError {
    /// The first object of the lowest rule that the design breaks: the cell in which it stands, and the names that tell it.
    Refused {
        rule: SpiceRule,
        cell: Text,
        names: Seq<Text>,
    },
    NoMemory,
}

/// The file of a design that keeps the rules: the subcircuits of its cells, in its order.
fn file_of(alloc: Global, hier: &Hier) -> Result<SpiceFile, NoMemory>
    requires { KeepsRules hier.now.cells }
    ensures { IfOk result (IsSpiceFor hier.now) }
{
    let order = hier.order();
    let mut cells = Seq::empty(alloc);
    for number in order {
        let subckt = subckt_of(alloc, hier, *number)?;
        cells.push(subckt)?;
    }
    Ok(SpiceFile { cells })
}

/// The design as SPICE subcircuits.
pub fn to_spice(alloc: Global, hier: &Hier) -> Result<SpiceFile, SpiceError>
    ensures { MatchResult result (IsSpiceFor hier.now) (IsSpiceFault hier.now) }
{
    match first_refusal(alloc, hier) {
        Ok(None) => match file_of(alloc, hier) {
            Ok(file) => Ok(file),
            Err(NoMemory) => Err(SpiceError::NoMemory),
        },
        Ok(Some(refusal)) => {
            let SpiceRefusal { rule, cell, names } = refusal;
            Err(SpiceError::Refused { rule, cell, names })
        }
        Err(NoMemory) => Err(SpiceError::NoMemory),
    }
}
