// The designs of a file, and the cells that are reached from its top.
ghost use Rattle.std.specs.Prelude.{◌≡◌, ◌++◌, option_to_list, map, IfOk, OnOk};
ghost use Rattle.edif_lookup.specs.Refusals.{lowest};
ghost use Rattle.edif_design.specs.FileRules.{design_count_refusals};
ghost use Rattle.edif_design.specs.Parts.{design_in, designs};
ghost use Rattle.edif_design.specs.Reach.{cells_below, reached_marks};
ghost use Rattle.edif_design.specs.References.{first_meant, number_meant, top, top_meant};
ghost use Rattle.edif_design.specs.Tables.{seen};

use edif_design::links::linked_number;
use edif_design::tables::FileTables;
use edif_lookup::{one_name, refusal};
use edif_values::{Design, EdifFile, FileItem, original};
use net_graph::reach::reached_from;
use nl_base::{NoMemory, Refusal, Rule, Seq};
use std::alloc::Global;

// Adds the design that a part of a file is.
fn push_design<'a>(found: &mut Vec<&'a Design>, item: &'a FileItem) -> Result<(), NoMemory>
    ensures { OnOk result (seen found.new.items
        ≡ seen found.old.items ++ option_to_list (design_in item.now)) }
{
    match item {
        FileItem::Design(design) => {
            found.push(design)?;
            Ok(())
        }
        _ => Ok(()),
    }
}

/// The designs of a file.
pub(crate) fn designs_of<'a>(alloc: Global, file: &'a EdifFile) -> Result<Vec<&'a Design>, NoMemory>
    ensures { IfOk result (λ found. seen found.items ≡ designs file.now) }
{
    let mut found = Vec::new(alloc);
    for item in file.items.items() {
        push_design(&mut found, item)?;
    }
    Ok(found)
}

/// E1: no design, or a second one.
#[tactic(auto, unfolding(edif_lookup::specs::Refusals::lower, edif_lookup::specs::Refusals::lowest))]
pub(crate) fn design_count_refusal(
    alloc: Global,
    designs: &[&Design],
) -> Result<Option<Refusal>, NoMemory>
    ensures { IfOk result (λ found. found ≡ lowest (design_count_refusals (seen designs.now))) }
{
    match designs {
        [] => {
            let refusal = refusal(alloc, Rule::E1, b"", Seq::empty(alloc))?;
            Ok(Some(refusal))
        }
        [_] => Ok(None),
        [_, second, ..] => {
            let names = one_name(alloc, original(&second.name))?;
            let refusal = refusal(alloc, Rule::E1, b"", names)?;
            Ok(Some(refusal))
        }
    }
}

/// The number of the top cell: that of the first design, where it is meant.
pub(crate) fn top_of(
    alloc: Global,
    tables: &FileTables<'_>,
    designs: &[&Design],
) -> Result<Option<u32>, NoMemory>
    ensures { IfOk result (λ number. number
        ≡ number_meant (first_meant (map (top_meant tables.now) (seen designs.now)))) }
{
    match designs {
        [] => Ok(None),
        [first, ..] => {
            let linked = tables.link(
                alloc,
                0,
                b"",
                Some(first.library.bytes()),
                first.cell.bytes(),
            )?;
            Ok(linked_number(&linked))
        }
    }
}

/// A mark for each cell that is reached from the top, by the graph of all cells.
pub(crate) fn marks_of(
    alloc: Global,
    tables: &FileTables<'_>,
    graph: &[Seq<u32>],
    start: Option<u32>,
) -> Result<Vec<bool>, NoMemory>
    requires graph { graph.now ≡ cells_below tables.now }
    requires start { start ≡ number_meant (top tables.now) }
    ensures { IfOk result (λ marks. marks.items ≡ reached_marks tables.now) }
{
    match start {
        None => Ok(Vec::new(alloc)),
        Some(number) => {
            let marks = reached_from(alloc, graph, number)?;
            Ok(marks)
        }
    }
}
