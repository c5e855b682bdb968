// The rules on the modules of a file, which are tried before tables of their names are made.
ghost use Rattle.std.specs.Prelude.{◌≡◌, [], map, IfOk};
ghost use Rattle.vlog_checked.specs.Groups.{file_refusals, module_refusals};
ghost use Rattle.vlog_design.specs.Rules.{first_of, modules_twice};
ghost use Rattle.vlog_design.specs.Tables.{modules_of};

use crate::together::Both;
use nl_base::{NoMemory, Refusal};
use std::alloc::Global;
use vlog_design::names::NameSet;
use vlog_rules::module_rules::{DeclaredTwice, Directions};
use vlog_rules::modules::{UnknownModules, module_twice, no_top};
use vlog_rules::passes::{EachStatement, first_in_modules};
use vlog_rules::repeats::names_of_modules;
use vlog_scopes::lists::distinct;
use vlog_values::{Module, VlogFile};

/// The names of the modules of a file, which differ, in their order.
pub(crate) fn file_names<'a>(alloc: Global, file: &'a VlogFile) -> Result<NameSet<'a>, NoMemory>
    requires { modules_twice file.now ≡ [] }
    ensures { IfOk result (λ names. names ≡ map (λ m. m.name) file.now.modules) }
{
    let names = names_of_modules(alloc, file.modules.items())?;
    let set = distinct(alloc, &names)?;
    Ok(set)
}

/// The first object of a file that breaks a rule on the names of its modules.
pub(crate) fn first_in_file(
    alloc: Global,
    file: &VlogFile,
    top: &[u8],
) -> Result<Option<Refusal>, NoMemory>
    ensures { IfOk result (λ found. found ≡ first_of (file_refusals file.now top.now)) }
{
    if let Some(refusal) = no_top(alloc, file, top)? {
        return Ok(Some(refusal));
    }
    module_twice(alloc, file)
}

/// The first object of the reached modules that breaks a rule on what statements name, on declarations or on directions, by the names
/// of all modules.
pub(crate) fn first_in_reached<'a>(
    alloc: Global,
    names: NameSet<'a>,
    all: &'a [Module],
    modules: &[&Module],
) -> Result<Option<Refusal>, NoMemory>
    requires { names ≡ map (λ m. m.name) all.now }
    ensures { IfOk result (λ found. found
        ≡ first_of (module_refusals all.now (modules_of modules.now))) }
{
    let rules = Both {
        first: EachStatement {
            rule: UnknownModules {
                modules: all,
                names,
            },
        },
        second: Both {
            first: DeclaredTwice,
            second: Directions,
        },
    };
    let any = first_in_modules(alloc, &rules, modules)?;
    if any.is_none() {
        return Ok(None);
    }
    if let Some(refusal) = first_in_modules(alloc, &rules.first, modules)? {
        return Ok(Some(refusal));
    }
    if let Some(refusal) = first_in_modules(alloc, &DeclaredTwice, modules)? {
        return Ok(Some(refusal));
    }
    first_in_modules(alloc, &Directions, modules)
}
