// The cell that is written for one of the design.
ghost use Rattle.std.specs.Prelude.{◌≡◌, ◌++◌, ◌<◌, Bool, [], true, length, IfOk};
ghost use Rattle.net_hier.specs.Design.{IsCell};
ghost use Rattle.net_hier.specs.declared.cells.HCell.{HCell as CellValue};
ghost use Rattle.net_live.specs.Live.{needs_constant};
ghost use Rattle.edif_plans.specs.Made.{IsMadeUnder};
ghost use Rattle.edif_plans.specs.Plans.{FitsCells, HasConstant, HasPorts, head_of};
ghost use Rattle.edif_plans.specs.Sound.{AreStems};
ghost use Rattle.edif_making.specs.Whole.{IsWhole, whole_cell};

use crate::cell::{cell_properties, cell_with, word_of};
use crate::contents::contents_of;
use edif_parts::ports_of;
use edif_plans::{Head, Plan};
use edif_values::Cell;
use net_bits::Classes;
use net_hier::{Constants, HCell, HInst, HProp};
use nl_base::{NoMemory, Seq};
use std::alloc::Global;

/// The cell that is written for the one with this name and these ports, these instances, and the nets and properties of `inside`, under this
/// head.
fn cell_under(
    alloc: Global,
    cells: &[HCell],
    constants: &Constants,
    plan: &Plan,
    head: &Head,
    shown: &HCell,
    own: Seq<HInst>,
    inside: &HCell,
    design_props: &[HProp],
    classes: Classes,
) -> Result<Cell, NoMemory>
    requires plan { FitsCells cells.now plan.now }
    requires ports { HasPorts head.now shown.now }
    requires whole { IsWhole cells.now shown.now own inside.now classes }
    requires constants { (value : Bool) → needs_constant classes value ≡ true
        → HasConstant plan.now value }
    requires stems { AreStems constants.now }
    ensures { IfOk result (IsMadeUnder constants.now cells.now plan.now head.now
        (whole_cell shown.now own inside.now []) (inside.now.props ++ design_props.now) classes) }
{
    let contents = contents_of(
        alloc, cells, constants, plan, head, shown, own, inside, classes,
    )?;
    let ports = ports_of(alloc, head.ports.items(), shown.ports.items())?;
    let properties = cell_properties(alloc, inside, design_props)?;
    word_of(&head.cell);
    let name = shown.name.bytes();
    let whole = cell_with(alloc, head, name, ports, contents, properties)?;
    Ok(whole)
}

/// The cell that is written for the one that has the name and the ports of the cell of this number, these instances, the nets and properties of
/// `inside`, and these properties of the design behind its own. Of all cells it needs the name and the ports alone. The instances are left
/// when those that are written are made, and the classes before the nets are made.
pub fn cell_of(
    alloc: Global,
    cells: &[HCell],
    constants: &Constants,
    plan: &Plan,
    number: u32,
    own: Seq<HInst>,
    inside: &HCell,
    design_props: &[HProp],
    classes: Classes,
) -> Result<Cell, NoMemory>
    requires cell { number < length cells.now }
    requires whole { (shown : CellValue) → IsCell cells.now number shown
        → IsWhole cells.now shown own inside.now classes }
    requires plan { FitsCells cells.now plan.now }
    requires constants { (value : Bool) → needs_constant classes value ≡ true
        → HasConstant plan.now value }
    requires stems { AreStems constants.now }
    ensures { (shown : CellValue) → IsCell cells.now number shown
        → IfOk result (IsMadeUnder constants.now cells.now plan.now (head_of plan.now number)
        (whole_cell shown own inside.now []) (inside.now.props ++ design_props.now) classes) }
{
    let place = number as usize;
    let shown = &cells[place];
    let head = plan.head(number);
    let made = cell_under(
        alloc,
        cells,
        constants,
        plan,
        head,
        shown,
        own,
        inside,
        design_props,
        classes,
    )?;
    Ok(made)
}
