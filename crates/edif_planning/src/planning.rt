// The plan of the file of a design.
ghost use Rattle.std.specs.Prelude.{IfOk};
ghost use Rattle.edif_planning.specs.Classes.{AreAllClasses};
ghost use Rattle.edif_planning.specs.Plans.{IsPlanned};

use crate::constants::{Known, missing, number_of};
use crate::heads::heads_of;
use crate::numbers::numbers_of;
use edif_plans::Plan;
use net_bits::Classes;
use net_hier::{Constants, Hier};
use nl_base::{NoMemory, Seq};
use std::alloc::Global;

/// The constants that are missing, for which new cells are written, and what stands where.
#[derive(Drop)]
pub struct Planned {
    pub missing: Vec<bool>,
    pub plan: Plan,
}

/// The plan of the file of a design with these classes.
pub fn plan_of(
    alloc: Global,
    hier: &Hier,
    constants: &Constants,
    all: &[Classes],
) -> Result<Planned, NoMemory>
    requires { AreAllClasses hier.now.cells all.now }
    ensures { IfOk result (IsPlanned constants.now hier.now) }
{
    // What `Hier` keeps is known of one whose cells are read.
    let _cells = hier.cells();
    let zero = Known::of(hier, all, constants, false);
    let one = Known::of(hier, all, constants, true);
    let missing = missing(alloc, zero, one)?;
    let count = missing.len() as u32;
    let numbers = numbers_of(alloc, hier, count)?;
    let heads = heads_of(alloc, hier, constants, missing.as_slice())?;
    let plan = Plan {
        heads: Seq::of(heads.made),
        numbers: Seq::of(numbers),
        zero: number_of(zero.place, count, 0),
        one: number_of(one.place, count, zero.count()),
    };
    Ok(Planned { missing, plan })
}
