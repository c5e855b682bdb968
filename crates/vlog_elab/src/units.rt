// The units of a design, counted by tables and ties before any net is made.
ghost use Rattle.std.specs.Prelude.{◌≡◌, ◌-◌, ◌^◌, min, map, IfOk};
ghost use Rattle.net_hier.specs.Units.{units};
ghost use Rattle.vlog_elab.specs.Ready.{AreReady, IsReady};
ghost use Rattle.vlog_elab.specs.Units.{cells_from, module_units};
ghost use Rattle.vlog_ties.specs.Ties.{modules_in};

use nl_base::NoMemory;
use std::alloc::Global;
use vlog_design::names::NameSet;
use vlog_rules::passes::ModuleScope;
use vlog_ties::counts::{join_count, table_bits};

// The units of a module, or 2^64-1 where there are more.
fn units_of_module(
    alloc: Global,
    names: &NameSet,
    scopes: &[ModuleScope],
    scope: &ModuleScope,
) -> Result<u64, NoMemory>
    requires named { names.now ≡ map (λ m. m.name) (modules_in scopes.now) }
    requires ready { IsReady (modules_in scopes.now) scope.now.module.now }
    ensures { IfOk result (λ count. count
        ≡ min (2 ^ 64 - 1) (module_units (modules_in scopes.now) scope.now.module.now)) }
{
    let joins = join_count(alloc, names, scopes, scope)?;
    Ok(table_bits(&scope.table).saturating_add(joins))
}

/// The units of the cells of the modules, or 2^64-1 where there are more.
pub(crate) fn units_of(
    alloc: Global,
    names: &NameSet,
    scopes: &[ModuleScope],
) -> Result<u64, NoMemory>
    requires { AreReady names.now (modules_in scopes.now) }
    ensures { IfOk result (λ count. count ≡ units (cells_from (modules_in scopes.now))) }
{
    let mut count: u64 = 0;
    for scope in scopes {
        let more = units_of_module(alloc, names, scopes, scope)?;
        count = count.saturating_add(more);
    }
    Ok(count)
}
