// The design of a file, or why it has none.
ghost use Rattle.std.specs.Prelude.{ℕ, ◌≡◌, ◌≤◌, [], Some, MatchResult, IfOk, slice_get};
ghost use Rattle.net_graph.specs.Graph.{IsFirstRecursion};
ghost use Rattle.net_hier.specs.Design.{cells_below};
ghost use Rattle.net_hier.specs.Valid.{CellsFit, count_limit};
ghost use Rattle.edif_values.specs.Sizes.{edif_size};
ghost use Rattle.edif_design.specs.Design.{edif_cells, numbers_in_design};
ghost use Rattle.edif_design.specs.FileRules.{recursion_refusals, refusals};
ghost use Rattle.edif_design.specs.Parts.{designs};
ghost use Rattle.edif_design.specs.Tables.{seen};
ghost use Rattle.net_hier.specs.Build.{IsFaultOf as IsBuildFault};
ghost use Rattle.edif_resolve.specs.declared.answer.ResolveError.TheVariants.{NoMemory};
ghost use Rattle.edif_resolve.specs.Answers.{IsDesignOf, IsFaultFrom, IsFaultOf};

use crate::cells::{design_cells, design_top, designs_properties};
use crate::counts::counts_of;
use crate::file::file_refusal;
use crate::tabled::TabledFile;
use crate::top::designs_of;
use edif_lookup::{one_name, refusal};
use edif_values::{Design, EdifFile};
use net_hier::build::BuildFault;
use net_hier::{HCell, Hier};
use nl_base::{NoMemory, Refusal, Rule};
use std::alloc::Global;

/// Why a file has no design.
#[derive(Drop)]
pub enum ResolveError {
    /// The first object, in file order, that breaks the lowest broken rule.
    Refused(Refusal),
    /// No rule is broken, and the units, this many or 2^64-1 where there are more, pass 33,554,432.
    TooBig(u64),
    /// Memory ran out.
    NoMemory,
}

impl From<NoMemory> for ResolveError {
    ghost from_gives = { λ _ e. e ≡ NoMemory };

    fn from(_: NoMemory) -> Self {
        ResolveError::NoMemory
    }
}

// E13 of the instance by which a cell reaches itself.
fn recursion_refusal(
    alloc: Global,
    cells: &[HCell],
    cell: u32,
    instance: u32,
) -> Result<Refusal, NoMemory>
    requires fit { (top : ℕ) × CellsFit cells.now top }
    requires first { IsFirstRecursion (cells_below cells.now) cell instance }
    ensures { IfOk result (λ made. slice_get (recursion_refusals cells.now) 0 ≡ Some made) }
{
    let at = &cells[cell as usize];
    let inner = &at.instances.items()[instance as usize];
    let names = one_name(alloc, inner.name.bytes())?;
    let made = refusal(alloc, Rule::E13, at.name.bytes(), names)?;
    Ok(made)
}

// E13 of a file. Its cells are made again: `Hier::build` takes those that it judges.
fn file_recursion(
    alloc: Global,
    tabled: &TabledFile<'_>,
    numbers: &[u32],
    cell: u32,
    instance: u32,
) -> Result<Refusal, NoMemory>
    requires clean { refusals tabled.now ≡ [] }
    requires small { edif_size tabled.now ≤ count_limit }
    requires numbers { numbers.now ≡ numbers_in_design tabled.now }
    requires first { IsFirstRecursion (cells_below (edif_cells tabled.now)) cell instance }
    ensures { IfOk result (λ made. slice_get (recursion_refusals (edif_cells tabled.now)) 0
        ≡ Some made) }
{
    let cells = design_cells(alloc, tabled, numbers)?;
    let made = recursion_refusal(alloc, cells.items(), cell, instance)?;
    Ok(made)
}

// Why the cells of a file are no design.
fn fault_of(
    alloc: Global,
    tabled: &TabledFile<'_>,
    numbers: &[u32],
    fault: BuildFault,
) -> ResolveError
    requires clean { refusals tabled.now ≡ [] }
    requires small { edif_size tabled.now ≤ count_limit }
    requires numbers { numbers.now ≡ numbers_in_design tabled.now }
    requires fault { IsBuildFault (edif_cells tabled.now) fault }
    ensures { IsFaultFrom (edif_cells tabled.now) result }
{
    match fault {
        BuildFault::Recursion { cell, instance } => {
            match file_recursion(alloc, tabled, numbers, cell, instance) {
                Ok(refusal) => ResolveError::Refused(refusal),
                Err(_) => ResolveError::NoMemory,
            }
        }
        BuildFault::TooBig(units) => ResolveError::TooBig(units),
        BuildFault::NoMemory => ResolveError::NoMemory,
    }
}

/// The design of a file that breaks none of the rules E1 to E12.
pub(crate) fn design_of(
    alloc: Global,
    tabled: &TabledFile<'_>,
    found: &[&Design],
) -> Result<Hier, ResolveError>
    requires clean { refusals tabled.now ≡ [] }
    requires small { edif_size tabled.now ≤ count_limit }
    requires designs { seen found.now ≡ designs tabled.now }
    ensures { MatchResult result (IsDesignOf tabled.now) (IsFaultOf tabled.now) }
{
    let counts = counts_of(alloc, tabled.marks())?;
    let numbers = counts.as_slice();
    let cells = design_cells(alloc, tabled, numbers)?;
    let top = design_top(tabled, numbers);
    let props = designs_properties(alloc, found)?;
    match Hier::build(alloc, cells, top, props) {
        Ok(hier) => Ok(hier),
        Err(fault) => Err(fault_of(alloc, tabled, numbers, fault)),
    }
}

/// The design of a file of at most 268,435,456 items (EDIF 2 0 0, edif), in which every reference has to mean something.
///
/// # Errors
/// `Refused`: the file breaks a rule; it is the first object, in file order, that breaks the lowest broken rule. `TooBig`: no rule is
/// broken, and the units pass 33,554,432. `NoMemory`: memory ran out.
pub fn resolve(alloc: Global, file: &EdifFile) -> Result<Hier, ResolveError>
    requires { edif_size file.now ≤ count_limit }
    ensures { MatchResult result (IsDesignOf file.now) (IsFaultOf file.now) }
{
    let found = designs_of(alloc, file)?;
    let tabled = TabledFile::of(alloc, file, found.as_slice())?;
    match file_refusal(alloc, &tabled, file, found.as_slice())? {
        Some(refusal) => Err(ResolveError::Refused(refusal)),
        None => design_of(alloc, &tabled, found.as_slice()),
    }
}
