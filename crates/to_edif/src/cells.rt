// The cells of the file.
ghost use Rattle.std.specs.Prelude.{◌≡◌, ◌==◌, ◌<◌, ◌≤◌, Bool, List, [], None, Some, cond, true, length, map, set, IfOk, IfSome, OnOk};
ghost use Rattle.edif_plans.specs.Planned.{AreCells};
ghost use Rattle.net_bits.specs.Classes.{AreClassesAt};
ghost use Rattle.edif_plans.specs.Plans.{FitsCells};
ghost use Rattle.edif_plans.specs.Sound.{AreStems};
ghost use Rattle.net_hier.specs.Design.{IsCell};
ghost use Rattle.net_hier.specs.declared.cells.HCell.{HCell as CellValue};
ghost use Rattle.net_hier.specs.Valid.{IsHier, unit_limit};
ghost use Rattle.to_edif.specs.Left.{shown_cell};
ghost use Rattle.to_edif.specs.Settings.{design_of};
ghost use Rattle.to_edif.specs.Cells.{AreKept, AreNewCells, HasConstants, HaveHeads};

use edif_making::{cell_of, new_cell};
use edif_planning::name_of;
use edif_plans::Plan;
use edif_value_laws::words_of;
use edif_values::Cell;
use net_bits::Classes;
use net_hier::{Constants, HCell, HInst, HProp, Hier, HierParts};
use nl_base::{NoMemory, Seq, Text};
use std::alloc::Global;
use std::mem::replace;

/// The new cells of these constants.
pub(crate) fn new_cells(
    alloc: Global,
    constants: &Constants,
    plan: &Plan,
    values: &[bool],
) -> Result<Vec<Cell>, NoMemory>
    requires { HaveHeads plan.now (length values.now) }
    ensures { IfOk result (λ made. AreNewCells constants.now plan.now values.now made.items) }
{
    let heads = plan.heads.items();
    let mut made = Vec::new(alloc);
    for (place, value) in values.iter().enumerate() {
        let head = &heads[place];
        words_of(head);
        let constant = name_of(constants, *value);
        let cell = new_cell(alloc, head, constant)?;
        made.push(cell)?;
    }
    Ok(made)
}

/// The classes of each cell, kept until its cell is made.
pub(crate) fn kept_of(alloc: Global, all: Vec<Classes>) -> Result<Vec<Option<Classes>>, NoMemory>
    ensures { IfOk result (λ kept. kept.items ≡ map Some all.items) }
{
    let mut kept = Vec::with_capacity(alloc, all.len())?;
    for classes in all {
        kept.push(Some(classes))?;
    }
    Ok(kept)
}

/// Takes the classes that are kept for the cell of this number, where there are any.
fn taken(kept: &mut Vec<Option<Classes>>, cells: &[HCell], number: u32) -> Option<Classes>
    requires { AreKept cells.now kept.old.items }
    ensures kept { kept.new.items ≡ set kept.old.items number None }
    ensures classes { IfSome result (AreClassesAt cells.now number) }
{
    match kept.get_mut(number as usize) {
        Some(slot) => slot.take(),
        None => None,
    }
}

/// The classes of the cell of this number: those that are kept, which are kept no longer, or else made anew.
#[tactic(auto, using(crate::proofs::Left::few_here, crate::proofs::Left::classes_here))]
fn classes_of(
    alloc: Global,
    kept: &mut Vec<Option<Classes>>,
    cells: &[HCell],
    number: u32,
) -> Result<Classes, NoMemory>
    requires cell { number < length cells.now }
    requires few { (cell : CellValue) → IsCell cells.now number cell
        → length cell.joins ≤ unit_limit }
    requires kept { AreKept cells.now kept.old.items }
    ensures kept { kept.new.items ≡ set kept.old.items number None }
    ensures classes { IfOk result (AreClassesAt cells.now number) }
{
    if let Some(classes) = taken(kept, cells, number) {
        return Ok(classes);
    }
    let classes = Classes::of_cell_uncounted(alloc, &cells[number as usize])?;
    Ok(classes)
}

/// What a cell is made of: its instances, and a cell that has its nets and its properties alone.
#[derive(Drop)]
pub struct Inside {
    pub instances: Seq<HInst>,
    pub rest: HCell,
}

/// Takes what the cell of this number is made of; its joins are left. It keeps its name, and its ports, to which other cells refer.
fn inside_of(alloc: Global, cells: &mut [HCell], number: u32) -> Result<Inside, NoMemory>
    requires { number < length cells.old }
    ensures left { (cell : CellValue) → IsCell cells.old number cell
        → OnOk result (cells.new ≡ set cells.old number (shown_cell cell)) }
    ensures instances { (cell : CellValue) → IsCell cells.old number cell
        → IfOk result (λ inside. inside.instances ≡ cell.instances) }
    ensures nets { (cell : CellValue) → IsCell cells.old number cell
        → IfOk result (λ inside. inside.rest.nets ≡ cell.nets) }
    ensures props { (cell : CellValue) → IsCell cells.old number cell
        → IfOk result (λ inside. inside.rest.props ≡ cell.props) }
{
    let name = Text::copy(alloc, b"")?;
    let cell = &mut cells[number as usize];
    cell.joins = Seq::empty(alloc);
    let instances = replace(&mut cell.instances, Seq::empty(alloc));
    let nets = replace(&mut cell.nets, Seq::empty(alloc));
    let props = replace(&mut cell.props, Seq::empty(alloc));
    let rest = HCell {
        name,
        ports: Seq::empty(alloc),
        instances: Seq::empty(alloc),
        nets,
        joins: Seq::empty(alloc),
        props,
    };
    Ok(Inside { instances, rest })
}

/// What all cells of a file are made by: the number of the design's top, the design's own properties, the order of its cells, the cells of the
/// constants, and the plan of the file.
#[derive(Clone, Copy)]
pub struct Setting<'a> {
    pub top: u32,
    pub props: &'a [HProp],
    pub order: &'a [u32],
    pub constants: &'a Constants,
    pub plan: &'a Plan,
}

/// The properties of the design that stand behind those of the cell of this number: the top has them all.
fn design_props<'a>(setting: &Setting<'a>, number: u32) -> &'a [HProp]
    ensures { result.now ≡ cond (number == setting.now.top) setting.now.props.now [] }
{
    if number != setting.top {
        return &[];
    }
    setting.props
}

/// These cells, and then those of the design, in its order. What a cell of the design is made of is taken from it, and left with its classes
/// while what is written for it is made.
fn made_in_order(
    alloc: Global,
    setting: &Setting<'_>,
    cells: &mut [HCell],
    mut kept: Vec<Option<Classes>>,
    first: Vec<Cell>,
) -> Result<Vec<Cell>, NoMemory>
    requires valid { IsHier (design_of setting.now cells.old) }
    requires fits { FitsCells cells.old setting.now.plan.now }
    requires kept { AreKept cells.old kept.items }
    requires constants { HasConstants (design_of setting.now cells.old) setting.now.plan.now }
    requires stems { AreStems setting.now.constants.now }
    ensures { (values : List Bool)
        → AreNewCells setting.now.constants.now setting.now.plan.now values first.items
        → IfOk result (λ made. AreCells setting.now.constants.now
        (design_of setting.now cells.old) setting.now.plan.now values setting.now.order.now
        made.items) }
{
    let order = setting.order;
    let mut made = first;
    for number in order {
        let classes = classes_of(alloc, &mut kept, cells, *number)?;
        let props = design_props(setting, *number);
        let inside = inside_of(alloc, cells, *number)?;
        let Inside { instances, rest } = inside;
        let cell = cell_of(
            alloc,
            cells,
            setting.constants,
            setting.plan,
            *number,
            instances,
            &rest,
            props,
            classes,
        )?;
        made.push(cell)?;
    }
    Ok(made)
}

/// These cells, and then those of the design, in its order.
pub(crate) fn with_cells(
    alloc: Global,
    hier: Hier,
    constants: &Constants,
    plan: &Plan,
    kept: Vec<Option<Classes>>,
    first: Vec<Cell>,
) -> Result<Vec<Cell>, NoMemory>
    requires fits { FitsCells hier.cells plan.now }
    requires kept { AreKept hier.cells kept.items }
    requires constants { HasConstants hier plan.now }
    requires stems { AreStems constants.now }
    ensures { (values : List Bool) → AreNewCells constants.now plan.now values first.items
        → IfOk result (λ made. AreCells constants.now hier plan.now values hier.order made.items) }
{
    let HierParts {
        cells,
        top,
        props,
        order,
    } = hier.into_parts();
    let setting = Setting {
        top,
        props: props.items(),
        order: order.items(),
        constants,
        plan,
    };
    let mut left = cells.into_vec();
    made_in_order(alloc, &setting, left.as_mut_slice(), kept, first)
}
