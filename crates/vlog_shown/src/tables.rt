// The names and the tables of what modules show.
ghost use Rattle.std.specs.Prelude.{◌≡◌, ◌≤◌, IfOk};
ghost use Rattle.std.specs.List.{AllByRecursion};
ghost use Rattle.vlog_scopes.specs.Distinct.{AreDeclaredOnce, Distinct, module_names};
ghost use Rattle.vlog_ties.specs.Ties.{modules_in};
ghost use Rattle.vlog_values.specs.Sizes.{module_size};

use nl_base::NoMemory;
use std::alloc::Global;
use vlog_design::names::NameSet;
use vlog_rules::passes::ModuleScope;
use vlog_rules::repeats::names_of_modules;
use vlog_scopes::lists::distinct;
use vlog_scopes::scopes::scope_of;
use vlog_values::Module;

/// The names of modules by what they show, which differ, in their order.
pub fn names_shown<'a>(alloc: Global, shown: &'a [Module]) -> Result<NameSet<'a>, NoMemory>
    requires { Distinct (module_names shown.now) }
    ensures { IfOk result (λ names. names ≡ module_names shown.now) }
{
    let names = names_of_modules(alloc, shown)?;
    let set = distinct(alloc, &names)?;
    Ok(set)
}

/// What modules show, with the tables of its names, in their order.
pub fn scopes_shown<'a>(
    alloc: Global,
    shown: &'a [Module],
) -> Result<Vec<ModuleScope<'a>>, NoMemory>
    requires once { AreDeclaredOnce shown.now }
    requires small { AllByRecursion (λ m. module_size m ≤ 268435456) shown.now }
    ensures { IfOk result (λ scopes. modules_in scopes.items ≡ shown.now) }
{
    let mut scopes = Vec::with_capacity(alloc, shown.len())?;
    for m in shown {
        scopes.push(scope_of(alloc, m)?)?;
    }
    Ok(scopes)
}
