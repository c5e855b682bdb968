// The first broken rule of a file, or its modules and what they show.
ghost use Rattle.std.specs.Prelude.{◌≡◌, ◌≤◌, ◌<◌, ◌^◌, [], bytes_eq, length, map, IfOk};
ghost use Rattle.std.specs.List.{position_or_len};
ghost use Rattle.vlog_checked.specs.ByTables.{AreLooked};
ghost use Rattle.vlog_checked.specs.Groups.{file_refusals, module_refusals};
ghost use Rattle.vlog_checked.specs.Looks.{IsChecked};
ghost use Rattle.vlog_checked.specs.Tabled.{CanHaveTables};
ghost use Rattle.vlog_design.specs.Reach.{reached};
ghost use Rattle.vlog_design.specs.Tables.{modules_of};
ghost use Rattle.vlog_shown.specs.Interfaces.{interface};
ghost use Rattle.vlog_values.specs.Sizes.{vlog_size};
ghost use Rattle.vlog_values.specs.Values.{IsVlogValue};

use crate::looks::{Look, looks_at};
use crate::modules::{file_names, first_in_file, first_in_reached};
use crate::tables::first_by_look;
use nl_base::{NoMemory, Refusal, Seq};
use std::alloc::Global;
use vlog_design::names::NameSet;
use vlog_reach::reached_modules;
use vlog_scopes::library::library_of;
use vlog_shown::interfaces::interfaces_of;
use vlog_shown::tables::{names_shown, scopes_shown};
use vlog_values::{Module, VlogFile};

/// The modules that are reached, in file order, their names, what they show to one another, the number of the top, and how many bits
/// they have.
#[derive(Drop)]
pub struct CleanModules<'a> {
    /// The names of the modules.
    pub names: NameSet<'a>,
    /// The modules.
    pub modules: Vec<&'a Module>,
    /// What the modules show to one another.
    pub shown: Seq<Module>,
    /// The number of the top.
    pub top: u32,
    /// The bits of the left sides of all that is tied, or 2^64-1 where there are more: there are no more joins.
    pub most: u64,
    /// The bits of all ports and nets, or 2^64-1 where there are more.
    pub bits: u64,
    /// Whether it is seen that a declaration declares each net of the modules.
    pub is_declared: bool,
}

/// What the rules say of a file.
#[derive(Drop)]
pub enum Checked<'a> {
    /// The first object, in file order, that breaks the lowest broken rule.
    Refused(Refusal),
    /// No rule is broken.
    Clean(CleanModules<'a>),
}

/// The number of the name, or how many names there are where it is none of them.
fn number_in(names: &NameSet, name: &[u8]) -> u32
    requires { length names.now < 2 ^ 32 }
    ensures { result ≡ position_or_len (bytes_eq name.now) names.now }
{
    match names.place(name) {
        None => names.len() as u32,
        Some(place) => place as u32,
    }
}

/// What is seen of modules, where this is what they show.
fn look_by(alloc: Global, modules: &[&Module], shown: &[Module]) -> Result<Look, NoMemory>
    requires kept { CanHaveTables (modules_of modules.now) }
    requires shown { shown.now ≡ map interface (modules_of modules.now) }
    ensures { IfOk result (AreLooked (modules_of modules.now) (modules_of modules.now)) }
{
    let names = names_shown(alloc, shown)?;
    let scopes = scopes_shown(alloc, shown)?;
    looks_at(alloc, &names, &scopes, modules)
}

/// Tries the rules on the reached modules: each table is left before the next is made.
fn examined_reached<'a>(
    alloc: Global,
    file: &'a VlogFile,
    top: &[u8],
    modules: Vec<&'a Module>,
) -> Result<Checked<'a>, NoMemory>
    requires named { file_refusals file.now top.now ≡ [] }
    requires declared { module_refusals file.now.modules (reached file.now top.now) ≡ [] }
    requires kept { CanHaveTables (reached file.now top.now) }
    requires reached { modules_of modules.items ≡ reached file.now top.now }
    ensures { IfOk result (IsChecked file.now top.now) }
{
    let shown = interfaces_of(alloc, &modules)?;
    let look = look_by(alloc, &modules, shown.items())?;
    let library = library_of(alloc, modules)?;
    let number = number_in(&library.names, top);
    if let Some(refusal) = first_by_look(alloc, &library, number, look.is_free)? {
        return Ok(Checked::Refused(refusal));
    }
    Ok(Checked::Clean(CleanModules {
        names: library.names,
        modules: library.modules,
        shown,
        top: number,
        most: look.most,
        bits: look.bits,
        is_declared: look.is_declared,
    }))
}

/// Tries the rules on the reached modules of a file with a top, whose modules have their own names.
fn check_modules<'a>(alloc: Global, file: &'a VlogFile, top: &[u8]) -> Result<Checked<'a>, NoMemory>
    requires value { IsVlogValue file.now }
    requires small { vlog_size file.now ≤ 268435456 }
    requires named { file_refusals file.now top.now ≡ [] }
    ensures { IfOk result (IsChecked file.now top.now) }
{
    let names = file_names(alloc, file)?;
    let number = number_in(&names, top);
    let modules = reached_modules(alloc, &names, file.modules.items(), number)?;
    if let Some(refusal) = first_in_reached(alloc, names, file.modules.items(), &modules)? {
        return Ok(Checked::Refused(refusal));
    }
    examined_reached(alloc, file, top, modules)
}

/// The first object of a file of at most 268,435,456 items that breaks the lowest broken rule under the module of this name, or the
/// reached modules with their tables. Each table is made once.
pub fn check_file<'a>(
    alloc: Global,
    file: &'a VlogFile,
    top: &[u8],
) -> Result<Checked<'a>, NoMemory>
    requires value { IsVlogValue file.now }
    requires small { vlog_size file.now ≤ 268435456 }
    ensures { IfOk result (IsChecked file.now top.now) }
{
    if let Some(refusal) = first_in_file(alloc, file, top)? {
        return Ok(Checked::Refused(refusal));
    }
    check_modules(alloc, file, top)
}
