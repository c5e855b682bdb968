// The cells of a design.
ghost use Rattle.std.specs.Prelude.{◌≡◌, ◌<◌, ◌^◌, ◌++◌, true, length, map, IfOk, OnOk};
ghost use Rattle.net_hier.specs.Valid.{Each};
ghost use Rattle.vlog_shown.specs.Interfaces.{cell_shown, cells_shown, is_shown};
ghost use Rattle.vlog_elab.specs.Ready.{CanBeCell, CanHaveCells};
ghost use Rattle.vlog_ties.specs.Ties.{modules_in};

use net_hier::HCell;
use nl_base::{NoMemory, Seq};
use std::alloc::Global;
use vlog_cells::cell::cell_of;
use vlog_design::names::NameSet;
use vlog_rules::passes::ModuleScope;
use vlog_shown::tables::{names_shown, scopes_shown};
use vlog_values::{Module, VlogFile};

/// Adds the cell of a module, where it is one of those that are shown.
#[tactic(auto, unfolding(vlog_shown::specs::Interfaces::cell_shown))]
fn push_cell(
    alloc: Global,
    names: &NameSet,
    scopes: &[ModuleScope],
    is_declared: bool,
    m: Module,
    cells: &mut Seq<HCell>,
) -> Result<(), NoMemory>
    requires named { names.now ≡ map (λ m. m.name) (modules_in scopes.now) }
    requires few { length (modules_in scopes.now) < 2 ^ 32 }
    requires fits { is_shown (modules_in scopes.now) m ≡ true → CanBeCell is_declared m }
    ensures added { OnOk result (cells.new
        ≡ cells.old ++ cell_shown (modules_in scopes.now) m) }
{
    if !names.has(m.name.bytes()) {
        return Ok(());
    }
    let cell = cell_of(alloc, names, scopes, is_declared, m)?;
    cells.push(cell)
}

/// The cells of those modules that are shown, in their order. Each module is left while its cell is made.
fn cells_made(
    alloc: Global,
    names: &NameSet,
    scopes: &[ModuleScope],
    is_declared: bool,
    modules: Seq<Module>,
) -> Result<Seq<HCell>, NoMemory>
    requires named { names.now ≡ map (λ m. m.name) (modules_in scopes.now) }
    requires few { length (modules_in scopes.now) < 2 ^ 32 }
    requires fit { Each (λ m. is_shown (modules_in scopes.now) m ≡ true
        → CanBeCell is_declared m) modules }
    ensures { IfOk result (λ cells. cells ≡ cells_shown (modules_in scopes.now) modules) }
{
    let mut cells = Seq::empty(alloc);
    for m in modules.into_vec() {
        push_cell(alloc, names, scopes, is_declared, m, &mut cells)?;
    }
    Ok(cells)
}

/// The cells of those modules of the file that are shown, in file order, by what is shown.
pub(crate) fn cells_of(
    alloc: Global,
    shown: &[Module],
    is_declared: bool,
    file: VlogFile,
) -> Result<Seq<HCell>, NoMemory>
    requires { CanHaveCells is_declared shown.now file.modules }
    ensures { IfOk result (λ cells. cells ≡ cells_shown shown.now file.modules) }
{
    let VlogFile { modules } = file;
    let names = names_shown(alloc, shown)?;
    let scopes = scopes_shown(alloc, shown)?;
    cells_made(alloc, &names, &scopes, is_declared, modules)
}
