// The table of the names of a module.
ghost use Rattle.std.specs.Prelude.{◌≡◌, ◌≤◌, [], true, IfOk};
ghost use Rattle.vlog_design.specs.Names.{implicit_names, signals};
ghost use Rattle.vlog_design.specs.Rules.{declared_twice};
ghost use Rattle.vlog_values.specs.Sizes.{module_size};

use crate::entries::{add_declared, add_implicit};
use crate::new_table::NewTable;
use nl_base::NoMemory;
use std::alloc::Global;
use vlog_design::table::Table;
use vlog_rules::counts::count_signals;
use vlog_rules::passes::ModuleScope;
use vlog_values::Module;

/// A module with its table, and whether that shows that a declaration declares each net: `false` says nothing.
#[derive(Drop)]
pub struct DeclaredScope<'a> {
    pub scope: ModuleScope<'a>,
    pub is_declared: bool,
}

/// The table of the ports and nets of the module, and whether it shows that a declaration declares each net.
fn table_of<'a>(alloc: Global, m: &'a Module) -> Result<(Table<'a>, bool), NoMemory>
    requires once { declared_twice m.now ≡ [] }
    requires small { module_size m.now ≤ 268435456 }
    ensures table { IfOk result (λ made. made.0 ≡ signals m.now) }
    ensures declared { IfOk result (λ made. made.1 ≡ true → implicit_names m.now ≡ []) }
{
    let mut names = NewTable::empty(alloc, count_signals(m))?;
    let next = add_declared(alloc, m, &mut names)?;
    let is_declared = add_implicit(alloc, m, next, &mut names)?;
    let table = names.into_table()?;
    Ok((table, is_declared))
}

/// The module with the table of its ports and nets, and whether that shows that a declaration declares each net. It takes time in
/// proportion to the module. Mostly all nets are declared, and no set of the declared names is made; nor is a list of the declared nets.
pub fn declared_scope<'a>(alloc: Global, m: &'a Module) -> Result<DeclaredScope<'a>, NoMemory>
    requires once { declared_twice m.now ≡ [] }
    requires small { module_size m.now ≤ 268435456 }
    ensures scope { IfOk result (λ found. found.scope.module.now ≡ m.now) }
    ensures declared { IfOk result (λ found. found.is_declared ≡ true → implicit_names m.now ≡ []) }
{
    let (table, is_declared) = table_of(alloc, m)?;
    Ok(DeclaredScope {
        scope: ModuleScope { module: m, table },
        is_declared,
    })
}

/// The module with the table of its ports and nets.
pub fn scope_of<'a>(alloc: Global, m: &'a Module) -> Result<ModuleScope<'a>, NoMemory>
    requires once { declared_twice m.now ≡ [] }
    requires small { module_size m.now ≤ 268435456 }
    ensures { IfOk result (λ scope. scope.module.now ≡ m.now) }
{
    let DeclaredScope { scope, .. } = declared_scope(alloc, m)?;
    Ok(scope)
}
