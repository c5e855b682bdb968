// Names that are no SPICE words.
ghost use Rattle.std.specs.Prelude.{◌≡◌, codes, flat_map, map, IfOk};
ghost use Rattle.to_spice_rules.specs.Names.{first_of, in_cells, no_word, no_words, refused};
ghost use Rattle.to_spice_rules.specs.declared.refusal.SpiceRule.TheVariants.{S1};

use crate::refusal::{SpiceRefusal, SpiceRule, refuse_two};
use crate::words::words_of;
use net_hier::{HCell, HInst};
use nl_base::{NoMemory, Text};
use spice_text::is_spice_word;
use std::alloc::Global;

/// The refusal of a name of this kind in a cell, where it is no SPICE word.
fn in_name(
    alloc: Global,
    cell: &[u8],
    kind: &'static [u8],
    name: &[u8],
) -> Result<Option<SpiceRefusal>, NoMemory>
    ensures { IfOk result
        (λ found. found ≡ first_of (map (refused S1 cell.now) (no_word kind.now name.now))) }
{
    if is_spice_word(name) {
        return Ok(None);
    }
    Ok(Some(refuse_two(alloc, SpiceRule::S1, cell, kind, name)?))
}

/// That of the words of the port bits of a cell.
fn in_words(alloc: Global, cell: &[u8], words: &[Text]) -> Result<Option<SpiceRefusal>, NoMemory>
    ensures { IfOk result (λ found. found ≡ first_of
        (flat_map (λ word. map (refused S1 cell.now) (no_word (codes "port") word)) words.now)) }
{
    for word in words {
        if let Some(refusal) = in_name(alloc, cell, b"port", word.bytes())? {
            return Ok(Some(refusal));
        }
    }
    Ok(None)
}

/// That of the names of the instances of a cell.
fn in_instances(
    alloc: Global,
    cell: &[u8],
    instances: &[HInst],
) -> Result<Option<SpiceRefusal>, NoMemory>
    ensures { IfOk result (λ found. found ≡ first_of
        (flat_map (λ instance. map (refused S1 cell.now)
        (no_word (codes "instance") instance.name)) instances.now)) }
{
    for instance in instances {
        if let Some(refusal) = in_name(alloc, cell, b"instance", instance.name.bytes())? {
            return Ok(Some(refusal));
        }
    }
    Ok(None)
}

/// That of a cell: its own name, the words of its port bits, the names of its instances.
fn in_cell(alloc: Global, cell: &HCell) -> Result<Option<SpiceRefusal>, NoMemory>
    ensures { IfOk result
        (λ found. found ≡ first_of (map (refused S1 cell.now.name) (no_words cell.now))) }
{
    let name = cell.name.bytes();
    if let Some(refusal) = in_name(alloc, name, b"cell", name)? {
        return Ok(Some(refusal));
    }
    let words = words_of(alloc, cell)?;
    if let Some(refusal) = in_words(alloc, name, words.items())? {
        return Ok(Some(refusal));
    }
    in_instances(alloc, name, cell.instances.items())
}

/// S1: each name is a SPICE word.
pub fn first_no_word(alloc: Global, cells: &[HCell]) -> Result<Option<SpiceRefusal>, NoMemory>
    ensures { IfOk result (λ found. found ≡ first_of (in_cells S1 no_words cells.now)) }
{
    for cell in cells {
        if let Some(refusal) = in_cell(alloc, cell)? {
            return Ok(Some(refusal));
        }
    }
    Ok(None)
}
