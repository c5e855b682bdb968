// What is known of the constants in a design.
ghost use Rattle.std.specs.Prelude.{◌≡◌, ◌↔◌, ◌+◌, ◌<◌, ◌^◌, true, IsTrue, IfOk, IfSome, cond, length};
ghost use Rattle.net_bits.specs.Classes.{AreClassesAt};
ghost use Rattle.net_hier.specs.Cells.{IsConstantCell};
ghost use Rattle.net_hier.specs.Constants.{name_of_constant};
ghost use Rattle.net_hier.specs.Design.{IsCell};
ghost use Rattle.net_hier.specs.declared.cells.HCell.{HCell as CellValue};
ghost use Rattle.edif_planning.specs.Classes.{AreAllClasses};
ghost use Rattle.edif_planning.specs.Constants.{IsFirstPlace, IsKnown, is_missing as is_missing_known, missing_of, number_for};

use crate::classes::is_needed;
use net_bits::{Classes, constant_of};
use net_hier::{ConstName, Constants, Hier};
use nl_base::NoMemory;
use std::alloc::Global;

/// The names of the cell of a constant and of its port.
pub fn name_of(constants: &Constants, value: bool) -> &ConstName
    ensures { result.now ≡ name_of_constant constants.now value }
{
    if value {
        constants.one()
    } else {
        constants.zero()
    }
}

/// Whether the cell of this number stands for the constant.
fn stands(hier: &Hier, number: u32, classes: &Classes, constants: &Constants, value: bool) -> bool
    requires cell { number < length hier.now.cells }
    requires classes { AreClassesAt hier.now.cells number classes.now }
    ensures { (cell : CellValue) → IsCell hier.now.cells number cell
        → (IsTrue result ↔ IsConstantCell constants.now value cell) }
{
    match constant_of(hier, number, classes, constants) {
        None => false,
        Some(found) => found == value,
    }
}

/// The first place of the order whose cell stands for the constant.
fn first_place(hier: &Hier, all: &[Classes], constants: &Constants, value: bool) -> Option<u32>
    requires { AreAllClasses hier.now.cells all.now }
    ensures { IsFirstPlace constants.now hier.now value result }
{
    let order = hier.order();
    for (place, number) in order.iter().enumerate() {
        let classes = &all[*number as usize];
        if stands(hier, *number, classes, constants, value) {
            return Some(place as u32);
        }
    }
    None
}

/// What is known of a constant: whether some cell needs it, and the first place of the order whose cell stands for it.
#[derive(Clone, Copy)]
pub struct Known {
    pub needed: bool,
    pub place: Option<u32>,
}

impl Known {
    /// What is known of a constant in a design with these classes.
    pub(crate) fn of(hier: &Hier, all: &[Classes], constants: &Constants, value: bool) -> Known
        requires { AreAllClasses hier.now.cells all.now }
        ensures { IsKnown constants.now hier.now value result }
    {
        // What `Hier` keeps is known of one whose cells are read.
        let _cells = hier.cells();
        let needed = is_needed(hier, all, value);
        let place = first_place(hier, all, constants, value);
        Known { needed, place }
    }

    /// Whether it is missing: some cell needs it, and no cell stands for it.
    fn is_missing(&self) -> bool
        ensures { result ≡ is_missing_known self.now }
    {
        self.needed && self.place.is_none()
    }

    /// How many new cells are written for it.
    pub(crate) fn count(&self) -> u32
        ensures { result ≡ cond (is_missing_known self.now) 1 0 }
    {
        if self.is_missing() { 1 } else { 0 }
    }
}

/// Those of the two constants that are missing, the zero first.
pub(crate) fn missing(alloc: Global, zero: Known, one: Known) -> Result<Vec<bool>, NoMemory>
    ensures { IfOk result (λ values. values.items ≡ missing_of zero one) }
{
    let mut values = Vec::new(alloc);
    if zero.is_missing() {
        values.push(false)?;
    }
    if one.is_missing() {
        values.push(true)?;
    }
    Ok(values)
}

/// The number of the cell of a constant behind so many new cells: that of the cell that stands for it, else its own.
pub(crate) fn number_of(place: Option<u32>, count: u32, own: u32) -> u32
    requires { IfSome place (λ at. count + at < 2 ^ 32) }
    ensures { result ≡ number_for place count own }
{
    match place {
        None => own,
        Some(place) => count + place,
    }
}
