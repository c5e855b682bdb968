// Names that are alike, up to case, to an earlier one.
ghost use Rattle.std.specs.Prelude.{◌≡◌, [], map, option_copied, IfOk};
ghost use Rattle.net_live.specs.Last.{seen};
ghost use Rattle.to_spice_rules.specs.Names.{alike_again, cells_again, first_of, in_cells, instances_again, refused, words_again};
ghost use Rattle.to_spice_rules.specs.declared.refusal.SpiceRule.TheVariants.{S3, S4};

use crate::refusal::{SpiceRefusal, SpiceRule, refuse, refuse_cell};
use crate::words::words_of;
use net_bits::Names;
use net_hier::{HCell, HInst};
use nl_base::{NoMemory, Text};
use std::alloc::Global;

/// The first name that is alike to an earlier one.
fn first_again<'a>(alloc: Global, names: &[&'a [u8]]) -> Result<Option<&'a [u8]>, NoMemory>
    ensures { IfOk result
        (λ found. option_copied found ≡ first_of (alike_again [] (seen names.now))) }
{
    let mut used = Names::new(alloc, true);
    for name in names {
        let new = used.add(alloc, *name)?;
        if !new {
            return Ok(Some(*name));
        }
    }
    Ok(None)
}

/// The names of cells.
fn names_of_cells<'a>(alloc: Global, cells: &'a [HCell]) -> Result<Vec<&'a [u8]>, NoMemory>
    ensures { IfOk result (λ names. seen names.items ≡ map (λ cell. cell.name) cells.now) }
{
    let mut names = Vec::new(alloc);
    for cell in cells {
        names.push(cell.name.bytes())?;
    }
    Ok(names)
}

/// The names of instances.
fn names_of_instances<'a>(alloc: Global, instances: &'a [HInst]) -> Result<Vec<&'a [u8]>, NoMemory>
    ensures { IfOk result
        (λ names. seen names.items ≡ map (λ instance. instance.name) instances.now) }
{
    let mut names = Vec::new(alloc);
    for instance in instances {
        names.push(instance.name.bytes())?;
    }
    Ok(names)
}

/// The bytes of texts.
fn bytes_of<'a>(alloc: Global, texts: &'a [Text]) -> Result<Vec<&'a [u8]>, NoMemory>
    ensures { IfOk result (λ names. seen names.items ≡ texts.now) }
{
    let mut names = Vec::new(alloc);
    for text in texts {
        names.push(text.bytes())?;
    }
    Ok(names)
}

/// S2: no cell has a name that is alike to that of an earlier one.
pub fn second_cell(alloc: Global, cells: &[HCell]) -> Result<Option<SpiceRefusal>, NoMemory>
    ensures { IfOk result (λ found. found ≡ first_of (cells_again cells.now)) }
{
    let names = names_of_cells(alloc, cells)?;
    let found = first_again(alloc, &names)?;
    match found {
        None => Ok(None),
        Some(name) => Ok(Some(refuse_cell(alloc, SpiceRule::S2, name)?)),
    }
}

/// S3 of a cell.
fn second_word(alloc: Global, cell: &HCell) -> Result<Option<SpiceRefusal>, NoMemory>
    ensures { IfOk result
        (λ found. found ≡ first_of (map (refused S3 cell.now.name) (words_again cell.now))) }
{
    let words = words_of(alloc, cell)?;
    let names = bytes_of(alloc, words.items())?;
    let found = first_again(alloc, &names)?;
    match found {
        None => Ok(None),
        Some(name) => Ok(Some(refuse(alloc, SpiceRule::S3, cell.name.bytes(), name)?)),
    }
}

/// S3: no port bit of a cell has a word that is alike to that of an earlier one.
pub fn first_second_word(alloc: Global, cells: &[HCell]) -> Result<Option<SpiceRefusal>, NoMemory>
    ensures { IfOk result (λ found. found ≡ first_of (in_cells S3 words_again cells.now)) }
{
    for cell in cells {
        if let Some(refusal) = second_word(alloc, cell)? {
            return Ok(Some(refusal));
        }
    }
    Ok(None)
}

/// S4 of a cell.
fn second_instance(alloc: Global, cell: &HCell) -> Result<Option<SpiceRefusal>, NoMemory>
    ensures { IfOk result
        (λ found. found ≡ first_of (map (refused S4 cell.now.name) (instances_again cell.now))) }
{
    let names = names_of_instances(alloc, cell.instances.items())?;
    let found = first_again(alloc, &names)?;
    match found {
        None => Ok(None),
        Some(name) => Ok(Some(refuse(alloc, SpiceRule::S4, cell.name.bytes(), name)?)),
    }
}

/// S4: no instance of a cell has a name that is alike to that of an earlier one.
pub fn first_second_instance(
    alloc: Global,
    cells: &[HCell],
) -> Result<Option<SpiceRefusal>, NoMemory>
    ensures { IfOk result (λ found. found ≡ first_of (in_cells S4 instances_again cells.now)) }
{
    for cell in cells {
        if let Some(refusal) = second_instance(alloc, cell)? {
            return Ok(Some(refusal));
        }
    }
    Ok(None)
}
