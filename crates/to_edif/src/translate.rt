// The translation.
ghost use Rattle.std.specs.Prelude.{IfOk};
ghost use Rattle.edif_copies.specs.Answers.{IsEdifFor};
ghost use Rattle.edif_plans.specs.Planned.{IsPlannedFile};
ghost use Rattle.edif_planning.specs.Classes.{AreAllClasses};
ghost use Rattle.edif_planning.specs.Plans.{IsPlanned};
ghost use Rattle.edif_plans.specs.Sound.{IsSoundDesign};
ghost use Rattle.edif_values.specs.Values.{IsEdifValue};
ghost use Rattle.to_edif.specs.Files.{IsNamedAfterTop};

use crate::cells::{kept_of, new_cells, with_cells};
use crate::file::{file_with, lone_name};
use edif_planning::{Planned, all_classes, plan_of};
use edif_value_laws::{stems_of, words_of};
use edif_values::EdifFile;
use net_bits::Classes;
use net_hier::{Constants, Hier};
use nl_base::NoMemory;
use std::alloc::Global;

/// The file of a design with these classes, as it is planned.
fn file_of(
    alloc: Global,
    hier: Hier,
    constants: &Constants,
    all: Vec<Classes>,
    planned: &Planned,
) -> Result<EdifFile, NoMemory>
    requires classes { AreAllClasses hier.cells all.items }
    requires planned { IsPlanned constants.now hier planned.now }
    ensures same { IfOk result (IsEdifFor constants.now hier) }
    ensures named { IfOk result (IsNamedAfterTop hier) }
    ensures value { IfOk result (λ file. IsSoundDesign hier → IsEdifValue file) }
    ensures planned { IfOk result (IsPlannedFile constants.now hier) }
{
    // What `Constants` keeps is known of one whose names are read.
    let _zero = constants.zero();
    stems_of(constants);
    let number = hier.top();
    let top = &hier.cells()[number as usize];
    let word = top.name.bytes();
    let name = lone_name(alloc, word)?;
    let design_name = lone_name(alloc, word)?;
    let first = new_cells(alloc, constants, &planned.plan, planned.missing.as_slice())?;
    let kept = kept_of(alloc, all)?;
    let cells = with_cells(alloc, hier, constants, &planned.plan, kept, first)?;
    let head = planned.plan.head(number);
    words_of(head);
    let file = file_with(alloc, name, design_name, cells, &head.cell)?;
    Ok(file)
}

/// The design as an EDIF file, with these cells for the constants. Each cell of the design is left when what is written for it is made.
///
/// # Errors
/// `NoMemory`: memory ran out.
pub fn to_edif(alloc: Global, hier: Hier, constants: &Constants) -> Result<EdifFile, NoMemory>
    ensures same { IfOk result (IsEdifFor constants.now hier) }
    ensures named { IfOk result (IsNamedAfterTop hier) }
    ensures value { IfOk result (λ file. IsSoundDesign hier → IsEdifValue file) }
    ensures planned { IfOk result (IsPlannedFile constants.now hier) }
{
    let all = all_classes(alloc, &hier)?;
    let planned = plan_of(alloc, &hier, constants, all.as_slice())?;
    let file = file_of(alloc, hier, constants, all, &planned)?;
    Ok(file)
}
