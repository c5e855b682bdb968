// The cells that references mean.
ghost use Rattle.std.specs.Prelude.{◌≡◌, ◌∷◌, [], IfOk};
ghost use Rattle.std.specs.Option.{option_copied};
ghost use Rattle.edif_lookup.specs.Refusals.{lowest};
ghost use Rattle.edif_design.specs.CellRules.{link_refusals};
ghost use Rattle.edif_design.specs.References.{link_meant, number_meant};
ghost use Rattle.edif_design.specs.Tables.{library_link, link_by_candidates, linked_as, linked_number, linked_refusal};

use crate::tables::FileTables;
use edif_lookup::{Meaning, one_name, refusal};
use nl_base::{Ident, NoMemory, Refusal, Rule};
use std::alloc::Global;

/// The number of the cell or library that a reference means, or the refusal.
#[derive(Drop)]
pub enum Linked {
    Cell(u32),
    Refused(Refusal),
}

fn refused(alloc: Global, rule: Rule, cell: &[u8], spelling: &[u8]) -> Result<Linked, NoMemory>
    ensures { IfOk result (λ made. made
        ≡ Linked.Refused (record { rule = rule; cell = cell.now; names = spelling.now ∷ [] })) }
{
    let names = one_name(alloc, spelling)?;
    let refusal = refusal(alloc, rule, cell, names)?;
    Ok(Linked::Refused(refusal))
}

// What follows from a meaning.
fn linked_as(
    alloc: Global,
    found: Meaning,
    rule: Rule,
    cell: &[u8],
    spelling: &[u8],
) -> Result<Linked, NoMemory>
    ensures { IfOk result (λ linked. linked ≡ linked_as found rule cell.now spelling.now) }
{
    match found {
        Meaning::Nothing => refused(alloc, rule, cell, spelling),
        Meaning::One(number) => Ok(Linked::Cell(number)),
        Meaning::Several => refused(alloc, Rule::E6, cell, spelling),
    }
}

/// The number of the cell that is meant.
pub fn linked_number(linked: &Linked) -> Option<u32>
    ensures { result ≡ linked_number linked.now }
{
    match linked {
        Linked::Cell(number) => Some(*number),
        Linked::Refused(_) => None,
    }
}

/// The refusal.
pub fn linked_refusal(linked: Linked) -> Option<Refusal>
    ensures { result ≡ linked_refusal linked }
{
    match linked {
        Linked::Cell(_) => None,
        Linked::Refused(refusal) => Some(refusal),
    }
}

impl<'a> FileTables<'a> {
    // The library in which a cellRef looks.
    fn library_link(
        &self,
        alloc: Global,
        home: u32,
        cell: &[u8],
        library: Option<&[u8]>,
    ) -> Result<Linked, NoMemory>
        ensures { IfOk result (λ linked. linked
            ≡ library_link self.now home cell.now (option_copied library.entry)) }
    {
        match library {
            None => Ok(Linked::Cell(home)),
            Some(name) => {
                let found = self.find_library(alloc, name)?;
                let linked = linked_as(alloc, found, Rule::E2, cell, name)?;
                Ok(linked)
            }
        }
    }

    // The cell that a cellRef and its libraryRef mean.
    fn link_by_candidates(
        &self,
        alloc: Global,
        home: u32,
        cell: &[u8],
        library: Option<&[u8]>,
        spelling: &[u8],
    ) -> Result<Linked, NoMemory>
        ensures { IfOk result (λ linked. linked
            ≡ link_by_candidates self.now home cell.now
            (option_copied library.entry) spelling.now) }
    {
        match self.library_link(alloc, home, cell, library)? {
            Linked::Refused(refusal) => Ok(Linked::Refused(refusal)),
            Linked::Cell(number) => {
                let found = self.find_cell(alloc, number, spelling)?;
                let linked = linked_as(alloc, found, Rule::E3, cell, spelling)?;
                Ok(linked)
            }
        }
    }

    /// The number of the cell that a cellRef and its libraryRef mean, or what they break. They stand in the library with the number
    /// `home`, and in the cell of the name `cell`.
    pub fn link(
        &self,
        alloc: Global,
        home: u32,
        cell: &[u8],
        library: Option<&[u8]>,
        spelling: &[u8],
    ) -> Result<Linked, NoMemory>
        ensures number { IfOk result
            (λ linked. linked_number linked
            ≡ number_meant (link_meant self.now home (option_copied library.entry) spelling.now)) }
        ensures refusal { IfOk result
            (λ linked. linked_refusal linked
            ≡ lowest (link_refusals self.now home cell.now
            (option_copied library.entry) spelling.now)) }
    {
        let linked = self.link_by_candidates(alloc, home, cell, library, spelling)?;
        Ok(linked)
    }
}
