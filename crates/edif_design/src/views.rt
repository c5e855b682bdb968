// The views of a cell, among which a viewRef is looked up.
ghost use Rattle.std.specs.Prelude.{◌≡◌, ◌≤◌, ◌++◌, length, map, option_to_list, IfOk, OnOk};
ghost use Rattle.edif_lookup.specs.Tables.{meaning};
ghost use Rattle.edif_design.specs.Parts.{view_in};
ghost use Rattle.edif_design.specs.Views.{entry_names, held_names, is_one, means_one, view_ident, view_names};

use edif_lookup::{Definitions, Meaning};
use edif_values::{Cell, CellItem};
use nl_base::{NoMemory, fold_eq};
use std::alloc::Global;
use std::marker::Model;

/// Where the identifiers of the views of a cell are. Nearly every cell has one view: that needs no table.
#[derive(Drop)]
enum Held<'a> {
    Nothing,
    One(&'a [u8]),
    Several(Box<Definitions<'a>>),
}

/// The identifiers of the views of a cell.
#[derive(Drop)]
pub struct CellViews<'a> {
    held: Held<'a>,
}

impl<'a> Model for CellViews<'a> {
    ghost use Rattle.std.specs.Prelude.{List, ℕ};
    ghost use Rattle.edif_design.specs.Views.{held_names};

    ghost Value = { List (List ℕ) };

    ghost view = { λ v. held_names v.held };
}

// Adds the identifier of the view that a part of a cell is. It is only asked whether a view is meant, so that its number is always 0.
fn push_view<'a>(entries: &mut Vec<(u32, &'a [u8])>, item: &'a CellItem) -> Result<(), NoMemory>
    ensures { OnOk result (entry_names entries.new.items
        ≡ entry_names entries.old.items ++ map view_ident (option_to_list (view_in item.now))) }
{
    match item {
        CellItem::View(view) => {
            entries.push((0, view.name.ident.bytes()))?;
            Ok(())
        }
        _ => Ok(()),
    }
}

// The identifiers of the views of a cell.
fn view_entries<'a>(alloc: Global, cell: &'a Cell) -> Result<Vec<(u32, &'a [u8])>, NoMemory>
    ensures { IfOk result (λ entries. entry_names entries.items ≡ view_names cell.now) }
{
    let mut entries = Vec::new(alloc);
    for item in cell.items.items() {
        push_view(&mut entries, item)?;
    }
    Ok(entries)
}

// Whether one definition is meant.
fn is_one(found: Meaning) -> bool
    ensures { result ≡ is_one found }
{
    match found {
        Meaning::One(_) => true,
        _ => false,
    }
}

// Whether a viewRef of this spelling means one of the views in a table.
fn means_in(alloc: Global, table: &Definitions<'_>, spelling: &[u8]) -> Result<bool, NoMemory>
    ensures { IfOk result (λ means. means ≡ is_one (meaning table.now spelling.now)) }
{
    let found = table.find(alloc, spelling)?;
    Ok(is_one(found))
}

// The identifier in some entries, of which there are no two.
fn held_name<'a>(entries: &[(u32, &'a [u8])]) -> Held<'a>
    requires { length entries.now ≤ 1 }
    ensures { held_names result ≡ entry_names entries.now }
{
    match entries {
        [entry] => Held::One(entry.1),
        _ => Held::Nothing,
    }
}

impl<'a> CellViews<'a> {
    // The views of these identifiers.
    fn of(alloc: Global, entries: Vec<(u32, &'a [u8])>) -> Result<CellViews<'a>, NoMemory>
        ensures { IfOk result (λ made. made ≡ entry_names entries.entry.items) }
    {
        if entries.len() > 1 {
            let table = Definitions::build(alloc, entries)?;
            return Ok(CellViews {
                held: Held::Several(Box::new(alloc, table)?),
            });
        }
        Ok(CellViews {
            held: held_name(entries.as_slice()),
        })
    }

    /// The views of a cell.
    pub(crate) fn build(alloc: Global, cell: &'a Cell) -> Result<CellViews<'a>, NoMemory>
        ensures { IfOk result (λ made. made ≡ view_names cell.now) }
    {
        let entries = view_entries(alloc, cell)?;
        let made = CellViews::of(alloc, entries)?;
        Ok(made)
    }

    /// Whether a viewRef of this spelling means one of the views.
    pub(crate) fn means(&self, alloc: Global, spelling: &[u8]) -> Result<bool, NoMemory>
        ensures { IfOk result (λ means. means ≡ means_one self.now spelling.now) }
    {
        match &self.held {
            Held::Nothing => Ok(false),
            Held::One(name) => Ok(fold_eq(*name, spelling)),
            Held::Several(table) => {
                let means = means_in(alloc, table, spelling)?;
                Ok(means)
            }
        }
    }
}
