// Tables in which the definition that a reference means is looked up.
ghost use Rattle.std.specs.Prelude.{◌≡◌, ◌||◌, ℕ, List, [], Some, cond, false, true, is_some, map, IfOk, OnOk};
ghost use Rattle.nl_base.specs.Case.{same_bytes, small};
ghost use Rattle.std.specs.Option.{option_copied};
ghost use Rattle.edif_lookup.specs.Tables.{HasTables, HoldsSpellings, HoldsSmall, at_small, first_number, is_several, meaning, meant_in, one_more, small_so, spelled_or_several, spelled_so, summary, written};

use crate::keys::{Folded, are_alike};
use indexmap::IndexMap;
use nl_base::NoMemory;
use std::alloc::Global;
use std::marker::Model;

/// What a reference means: nothing, the definition with a number, or one of several.
#[derive(Clone, Copy, PartialEq, Eq)]
pub enum Meaning {
    Nothing,
    One(u32),
    Several,
}

/// The definitions that are alike up to case: the number of the first, and whether there are more.
#[derive(Clone, Copy, PartialEq, Eq)]
pub struct Alike {
    pub first: u32,
    pub more: bool,
}

/// Those definitions, and one more.
fn joined_by(known: Option<&Alike>, number: u32) -> Alike
    ensures { result ≡ one_more (option_copied known.entry) number }
{
    match known {
        Some(alike) => Alike {
            first: alike.first,
            more: true,
        },
        None => Alike {
            first: number,
            more: false,
        },
    }
}

/// A table from each spelling to the number of the first definition with it.
fn spelling_table<'a>(
    alloc: Global,
    entries: &[(u32, &'a [u8])],
) -> Result<IndexMap<&'a [u8], u32>, NoMemory>
    ensures { IfOk result (HoldsSpellings (written entries.now)) }
{
    let mut table = IndexMap::new(alloc);
    for entry in entries {
        let known = table.get(entry.1).is_some();
        if !known {
            match table.insert(entry.1, entry.0) {
                Ok(_) => (),
                Err(_) => return Err(NoMemory),
            }
        }
    }
    Ok(table)
}

/// Adds a definition to those that are alike up to case, and answers whether there were some.
fn add_alike<'a>(
    table: &mut IndexMap<Folded<'a>, Alike>,
    spelling: &'a [u8],
    number: u32,
) -> Result<bool, NoMemory>
    ensures known { IfOk result
        (λ known. known ≡ is_some (at_small (map small spelling.now) table.old)) }
    ensures added { OnOk result ((other : List ℕ)
        → at_small other table.new
        ≡ cond (same_bytes other (map small spelling.now))
        (Some (one_more (at_small (map small spelling.now) table.old) number))
        (at_small other table.old)) }
{
    let key = Folded { bytes: spelling };
    let alike = joined_by(table.get(&key), number);
    if let Ok(_) = table.insert(key, alike) {
        return Ok(alike.more);
    }
    Err(NoMemory)
}

/// Fills the table from each spelling in small letters to the definitions alike, and answers whether there are several of some spelling.
fn fill_small<'a>(
    table: &mut IndexMap<Folded<'a>, Alike>,
    entries: &[(u32, &'a [u8])],
) -> Result<bool, NoMemory>
    requires { HoldsSmall [] table.old }
    ensures holds { OnOk result (HoldsSmall (written entries.now) table.new) }
    ensures several { IfOk result
        (λ several. several ≡ false → (spelling : List ℕ)
        → is_several (at_small spelling table.new) ≡ false) }
{
    let mut several = false;
    for entry in entries {
        let known = add_alike(table, entry.1, entry.0)?;
        several = either(several, known);
    }
    Ok(several)
}

/// Whether one of the two holds.
fn either(one: bool, other: bool) -> bool
    ensures { result ≡ (one || other) }
{
    one || other
}

/// The table of spellings where it is needed.
fn needed_spellings<'a>(
    alloc: Global,
    entries: &[(u32, &'a [u8])],
    needed: bool,
) -> Result<IndexMap<&'a [u8], u32>, NoMemory>
    ensures { IfOk result (λ table. needed ≡ true → HoldsSpellings (written entries.now) table) }
{
    if needed {
        let table = spelling_table(alloc, entries)?;
        return Ok(table);
    }
    Ok(IndexMap::new(alloc))
}

/// The number of the first definition with this spelling.
fn first_spelled(entries: &[(u32, &[u8])], spelling: &[u8]) -> Option<u32>
    ensures { result ≡ first_number (spelled_so spelling.now (written entries.now)) }
{
    for entry in entries {
        if entry.1 == spelling {
            return Some(entry.0);
        }
    }
    None
}

/// The definitions that are alike up to case.
fn all_alike(entries: &[(u32, &[u8])], spelling: &[u8]) -> Option<Alike>
    ensures { result ≡ summary (small_so (map small spelling.now) (written entries.now)) }
{
    let mut known = None;
    for entry in entries {
        known = joined_where(known, are_alike(entry.1, spelling), entry.0);
    }
    known
}

/// Those definitions, and one more where it is alike.
fn joined_where(known: Option<Alike>, alike: bool, number: u32) -> Option<Alike>
    ensures { result ≡ cond alike (Some (one_more known number)) known }
{
    if alike {
        return Some(joined_by(known.as_ref(), number));
    }
    known
}

/// What a reference with this spelling means, by a look at each definition.
fn find_among(entries: &[(u32, &[u8])], spelling: &[u8]) -> Meaning
    ensures { result ≡ meaning (written entries.now) spelling.now }
{
    if let Some(number) = first_spelled(entries, spelling) {
        return Meaning::One(number);
    }
    meaning_of(all_alike(entries, spelling).as_ref())
}

/// Up to how many definitions are looked through one by one.
const FEW: usize = 8;

/// The tables of definitions that are not few.
#[derive(Drop)]
struct Tables<'a> {
    by_spelling: IndexMap<&'a [u8], u32>,
    by_small: IndexMap<Folded<'a>, Alike>,
}

/// A list of definitions, each a number and a spelling, in which references are looked up. A few have no tables.
#[derive(Drop)]
pub struct Definitions<'a> {
    entries: Vec<(u32, &'a [u8])>,
    // None, or one. A list, since a borrow in a `Box` is not taken for a shorter one.
    tables: Vec<Tables<'a>>,
}

impl<'a> Model for Definitions<'a> {
    ghost use Rattle.std.specs.Prelude.{IfSome, List, ℕ, slice_get};
    ghost use Rattle.edif_lookup.specs.Tables.{HasTables, written};

    ghost Value = { List (ℕ × List ℕ) };

    ghost view = { λ d. written d.entries.items };

    ghost invariant = { λ d. IfSome (slice_get d.tables.items 0) (λ t. HasTables (written d.entries.items) t.by_spelling t.by_small) };
}

/// The tables of these definitions.
fn tables_of<'a>(alloc: Global, entries: &[(u32, &'a [u8])]) -> Result<Tables<'a>, NoMemory>
    ensures { IfOk result
        (λ tables. HasTables (written entries.now) tables.by_spelling tables.by_small) }
{
    let mut by_small = IndexMap::with_capacity(alloc, entries.len())?;
    let several = fill_small(&mut by_small, entries)?;
    let by_spelling = needed_spellings(alloc, entries, several)?;
    Ok(Tables {
        by_spelling,
        by_small,
    })
}

impl<'a> Tables<'a> {
    /// What a reference with this spelling means.
    fn find(&self, spelling: &[u8]) -> Meaning
        ensures { (entries : List (ℕ × List ℕ))
            → HasTables entries self.now.by_spelling self.now.by_small
            → result ≡ meaning entries spelling.now }
    {
        let known = self.by_small.get(&Folded { bytes: spelling });
        if is_several(known) {
            return spelled_or_several(self.by_spelling.get(spelling));
        }
        meaning_of(known)
    }
}

impl<'a> Definitions<'a> {
    /// The definitions, with their tables.
    pub fn build(alloc: Global, entries: Vec<(u32, &'a [u8])>) -> Result<Definitions<'a>, NoMemory>
        ensures { IfOk result (λ definitions. definitions ≡ written entries.entry.items) }
    {
        if entries.len() <= FEW {
            return Ok(Definitions {
                entries,
                tables: Vec::new(alloc),
            });
        }
        let mut tables = Vec::with_capacity(alloc, 1)?;
        tables.push(tables_of(alloc, entries.as_slice())?)?;
        Ok(Definitions { entries, tables })
    }

    /// What a reference with this spelling means.
    pub fn find(&self, alloc: Global, spelling: &[u8]) -> Result<Meaning, NoMemory>
        ensures { IfOk result (λ found. found ≡ meaning self.now spelling.now) }
    {
        match self.tables.get(0) {
            None => Ok(find_among(self.entries.as_slice(), spelling)),
            Some(tables) => Ok(tables.find(spelling)),
        }
    }
}

/// Whether there are several.
fn is_several(known: Option<&Alike>) -> bool
    ensures { result ≡ is_several (option_copied known.entry) }
{
    match known {
        None => false,
        Some(alike) => alike.more,
    }
}

/// The definition with this number, or where there is none, one of several.
fn spelled_or_several(number: Option<&u32>) -> Meaning
    ensures { result ≡ spelled_or_several (option_copied number.entry) }
{
    match number {
        None => Meaning::Several,
        Some(number) => Meaning::One(*number),
    }
}

fn meaning_of(known: Option<&Alike>) -> Meaning
    ensures { result ≡ meant_in (option_copied known.entry) }
{
    match known {
        None => Meaning::Nothing,
        Some(alike) => {
            if alike.more {
                Meaning::Several
            } else {
                Meaning::One(alike.first)
            }
        }
    }
}
