// The identifiers of the cells of a file.
ghost use Rattle.std.specs.Prelude.{◌≡◌, ◌++◌, ◌∷◌, [], List, map, IfOk, OnOk};
ghost use Rattle.edif_planning.specs.Numbers.{AreHeads, CellNames, names_with, new_names, old_names};

use crate::constants::name_of;
use edif_plans::Head;
use edif_spaces::Space;
use net_hier::{ConstName, Constants, HCell, Hier};
use nl_base::NoMemory;
use std::alloc::Global;

/// The heads of cells, and the name space of their identifiers.
#[derive(Drop)]
pub(crate) struct Heads {
    space: Space,
    pub(crate) made: Vec<Head>,
}

impl Heads {
    /// Adds that of the new cell of a constant.
    fn add_new(&mut self, alloc: Global, constant: &ConstName) -> Result<(), NoMemory>
        ensures { (wanted : List CellNames) → AreHeads wanted self.old.space self.old.made.items
            → OnOk result (AreHeads (wanted ++ names_with constant.now.cell (constant.now.port ∷ []) ∷ []) self.new.space self.new.made.items) }
    {
        let ident = self.space.ident(alloc, constant.cell.bytes())?;
        let head = Head::of_new(alloc, ident, constant.port.bytes())?;
        self.made.push(head)?;
        Ok(())
    }

    /// Adds that of a cell of the design.
    fn add_cell(&mut self, alloc: Global, cell: &HCell) -> Result<(), NoMemory>
        ensures { (wanted : List CellNames) → AreHeads wanted self.old.space self.old.made.items
            → OnOk result (AreHeads (wanted ++ names_with cell.now.name (map (λ port. port.name) cell.now.ports) ∷ []) self.new.space self.new.made.items) }
    {
        let ident = self.space.ident(alloc, cell.name.bytes())?;
        let head = Head::of_ports(alloc, ident, cell.ports.items())?;
        self.made.push(head)?;
        Ok(())
    }
}

/// Those of the new cells of these constants.
fn new_heads(alloc: Global, constants: &Constants, values: &[bool]) -> Result<Heads, NoMemory>
    ensures { IfOk result (λ heads. AreHeads
        (map (new_names constants.now) values.now) heads.space heads.made.items) }
{
    let mut heads = Heads {
        space: Space::new(alloc),
        made: Vec::new(alloc),
    };
    for value in values {
        heads.add_new(alloc, name_of(constants, *value))?;
    }
    Ok(heads)
}

/// Adds those of the cells of the design, in its order.
fn add_cells(alloc: Global, hier: &Hier, heads: &mut Heads) -> Result<(), NoMemory>
    ensures { (wanted : List CellNames) → AreHeads wanted heads.old.space heads.old.made.items
        → OnOk result (AreHeads (wanted ++ map (old_names hier.now.cells) hier.now.order) heads.new.space heads.new.made.items) }
{
    let cells = hier.cells();
    let order = hier.order();
    for number in order {
        let cell = &cells[*number as usize];
        heads.add_cell(alloc, cell)?;
    }
    Ok(())
}

/// Those of the new cells of these constants, and then those of the cells of the design, in its order.
pub(crate) fn heads_of(
    alloc: Global,
    hier: &Hier,
    constants: &Constants,
    values: &[bool],
) -> Result<Heads, NoMemory>
    ensures { IfOk result (λ heads. AreHeads
        (map (new_names constants.now) values.now
        ++ map (old_names hier.now.cells) hier.now.order) heads.space heads.made.items) }
{
    let mut heads = new_heads(alloc, constants, values)?;
    add_cells(alloc, hier, &mut heads)?;
    Ok(heads)
}
