// Whether a file has a design, with no cell of it made.
ghost use Rattle.std.specs.Prelude.{◌≡◌, ◌≤◌, [], true, IfOk, MatchResult};
ghost use Rattle.net_hier.specs.Valid.{count_limit};
ghost use Rattle.edif_values.specs.Sizes.{edif_size};
ghost use Rattle.edif_design.specs.FileRules.{refusals};
ghost use Rattle.edif_design.specs.Parts.{designs};
ghost use Rattle.edif_design.specs.Tables.{seen};
ghost use Rattle.edif_resolve.specs.Answers.{HasDesign, IsFaultOf};

use crate::answer::{ResolveError, design_of};
use crate::file::file_refusal;
use crate::most::most_of_file;
use crate::tabled::TabledFile;
use crate::top::designs_of;
use edif_values::{Design, EdifFile};
use net_graph::order::postorder;
use net_hier::build::UNIT_LIMIT;
use nl_base::NoMemory;
use std::alloc::Global;

// Whether it shows, with no cell made, that a file has a design which breaks none of the rules E1 to E12: `false` says nothing.
fn shows_design(alloc: Global, tabled: &TabledFile<'_>) -> Result<bool, NoMemory>
    requires clean { refusals tabled.now ≡ [] }
    requires small { edif_size tabled.now ≤ count_limit }
    ensures { IfOk result (λ shows. shows ≡ true → HasDesign tabled.now) }
{
    let Some(top) = tabled.top() else {
        return Ok(false);
    };
    let most = most_of_file(alloc, tabled)?;
    if most > UNIT_LIMIT {
        return Ok(false);
    }
    let order = postorder(alloc, tabled.graph(), top)?;
    Ok(order.is_some())
}

// Whether a file has a design that breaks none of the rules E1 to E12, or why it has none. Its cells are made only where it is
// not shown without them.
fn judged(alloc: Global, tabled: &TabledFile<'_>, found: &[&Design]) -> Result<(), ResolveError>
    requires clean { refusals tabled.now ≡ [] }
    requires small { edif_size tabled.now ≤ count_limit }
    requires designs { seen found.now ≡ designs tabled.now }
    ensures { MatchResult result (λ done. HasDesign tabled.now) (IsFaultOf tabled.now) }
{
    if shows_design(alloc, tabled)? {
        return Ok(());
    }
    match design_of(alloc, tabled, found) {
        Ok(_design) => Ok(()),
        Err(error) => Err(error),
    }
}

/// Whether a file of at most 268,435,456 items has a design: `Ok` exactly where `resolve` answers one, and its errors. A cell is made
/// only where some cell reaches itself, or where the port bits, nets and references of the reached cells pass 33,554,432.
///
/// # Errors
/// Those of `resolve`.
pub fn check(alloc: Global, file: &EdifFile) -> Result<(), ResolveError>
    requires { edif_size file.now ≤ count_limit }
    ensures { MatchResult result (λ done. HasDesign file.now) (IsFaultOf file.now) }
{
    let found = designs_of(alloc, file)?;
    let tabled = TabledFile::of(alloc, file, found.as_slice())?;
    match file_refusal(alloc, &tabled, file, found.as_slice())? {
        Some(refusal) => Err(ResolveError::Refused(refusal)),
        None => judged(alloc, &tabled, found.as_slice()),
    }
}
