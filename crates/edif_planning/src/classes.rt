// The classes of connected nodes of the cells of a design.
ghost use Rattle.std.specs.Prelude.{◌≡◌, true, IsTrue, IfOk};
ghost use Rattle.std.specs.List.{list_any};
ghost use Rattle.net_live.specs.Live.{needs_constant as needs_constant_of};
ghost use Rattle.edif_planning.specs.Classes.{AreAllClasses};

use net_bits::Classes;
use net_hier::Hier;
use net_live::needs_constant;
use nl_base::NoMemory;
use std::alloc::Global;

/// The classes of each cell of a design, in file order.
pub fn all_classes(alloc: Global, hier: &Hier) -> Result<Vec<Classes>, NoMemory>
    ensures { IfOk result (λ all. AreAllClasses hier.now.cells all.items) }
{
    let cells = hier.cells();
    let mut all = Vec::with_capacity(alloc, cells.len())?;
    for cell in cells {
        let classes = Classes::of_cell_uncounted(alloc, cell)?;
        all.push(classes)?;
    }
    Ok(all)
}

/// Whether some cell needs the constant.
pub(crate) fn is_needed(hier: &Hier, all: &[Classes], value: bool) -> bool
    requires { AreAllClasses hier.now.cells all.now }
    ensures { result ≡ list_any (λ classes. needs_constant_of classes value) all.now }
{
    for classes in all {
        if needs_constant(classes, value) {
            return true;
        }
    }
    false
}
