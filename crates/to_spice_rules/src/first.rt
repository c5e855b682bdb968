// The first refusal of a design.
ghost use Rattle.std.specs.Prelude.{◌≡◌, ◌++◌, IfOk};
ghost use Rattle.to_spice_rules.specs.Answers.{RulesFound};
ghost use Rattle.to_spice_rules.specs.Names.{cells_again, first_by_names, first_of, in_cells, instances_again, no_words, words_again};
ghost use Rattle.to_spice_rules.specs.declared.refusal.SpiceRule.TheVariants.{S1, S3, S4};

use crate::again::{first_second_instance, first_second_word, second_cell};
use crate::connections::first_connection;
use crate::names::first_no_word;
use crate::refusal::SpiceRefusal;
use net_hier::{HCell, Hier};
use nl_base::NoMemory;
use std::alloc::Global;

/// S3 and S4: what is alike in a cell.
fn first_in_cell(alloc: Global, cells: &[HCell]) -> Result<Option<SpiceRefusal>, NoMemory>
    ensures { IfOk result (λ found. found ≡ first_of
        (in_cells S3 words_again cells.now ++ in_cells S4 instances_again cells.now)) }
{
    if let Some(refusal) = first_second_word(alloc, cells)? {
        return Ok(Some(refusal));
    }
    first_second_instance(alloc, cells)
}

/// S2 to S4: what is alike.
fn first_alike(alloc: Global, cells: &[HCell]) -> Result<Option<SpiceRefusal>, NoMemory>
    ensures { IfOk result (λ found. found ≡ first_of (cells_again cells.now
        ++ (in_cells S3 words_again cells.now ++ in_cells S4 instances_again cells.now))) }
{
    if let Some(refusal) = second_cell(alloc, cells)? {
        return Ok(Some(refusal));
    }
    first_in_cell(alloc, cells)
}

/// S1 to S4: the names.
#[tactic(auto, unfolding(crate::specs::Names::first_by_names))]
fn first_name(alloc: Global, cells: &[HCell]) -> Result<Option<SpiceRefusal>, NoMemory>
    ensures { IfOk result (λ found. found ≡ first_by_names cells.now) }
{
    if let Some(refusal) = first_no_word(alloc, cells)? {
        return Ok(Some(refusal));
    }
    first_alike(alloc, cells)
}

/// The first object of the lowest rule that the design breaks.
pub fn first_refusal(alloc: Global, hier: &Hier) -> Result<Option<SpiceRefusal>, NoMemory>
    ensures { IfOk result (RulesFound hier.now.cells) }
{
    if let Some(refusal) = first_name(alloc, hier.cells())? {
        return Ok(Some(refusal));
    }
    first_connection(alloc, hier)
}
