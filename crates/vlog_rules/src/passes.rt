// One rule over all modules.
ghost use Rattle.std.specs.Prelude.{◌≡◌, IfOk, flat_map};
ghost use Rattle.vlog_design.specs.Names.{signals};
ghost use Rattle.vlog_design.specs.Rules.{first_of};
ghost use Rattle.vlog_design.specs.Tables.{modules_of};

use crate::statements::{StatementRule, first_in_statements};
use nl_base::{NoMemory, Refusal};
use std::alloc::Global;
use vlog_design::table::Table;
use vlog_values::Module;

/// A rule that looks at one module after the other.
pub trait ModuleRule {
    ghost use Rattle.std.specs.Prelude.{List};
    ghost use Rattle.nl_base.specs.declared.rule.Refusal.{Refusal};
    ghost use Rattle.vlog_values.specs.declared.module.Module.{Module};

    ghost refusals: { Self → Module → List Refusal };

    /// The first object of the module that breaks the rule.
    fn first(&self, alloc: Global, m: &Module) -> Result<Option<Refusal>, NoMemory>
        ensures { IfOk result (λ found. found ≡ first_of (refusals self.now m.now)) };
}

/// The first object of the modules that breaks the rule.
pub fn first_in_modules<R: ModuleRule>(
    alloc: Global,
    rule: &R,
    modules: &[&Module],
) -> Result<Option<Refusal>, NoMemory>
    ensures { IfOk result (λ found. found
        ≡ first_of (flat_map (R.refusals rule.now) (modules_of modules.now))) }
{
    for m in modules {
        if let Some(refusal) = rule.first(alloc, *m)? {
            return Ok(Some(refusal));
        }
    }
    Ok(None)
}

/// A rule on statements, as one on modules.
#[derive(Drop)]
pub struct EachStatement<R> {
    pub rule: R,
}

impl<R: StatementRule> ModuleRule for EachStatement<R> {
    ghost use Rattle.std.specs.Prelude.{map};
    ghost use Rattle.vlog_design.specs.Rules.{each_statement, refused};

    ghost refusals = { λ each m. map (refused (R.number each.rule) m.name) (each_statement (R.objects each.rule) m) };

    fn first(&self, alloc: Global, m: &Module) -> Result<Option<Refusal>, NoMemory> {
        first_in_statements(alloc, &self.rule, m)
    }
}

/// A module with the table of its names.
#[derive(Drop)]
pub struct ModuleScope<'a> {
    pub module: &'a Module,
    pub table: Table<'a>,
    ghost is_whole: { table ≡ signals module.now },
}

/// A rule that looks at one module after the other, with what its names stand for.
pub trait ScopeRule {
    ghost use Rattle.std.specs.Prelude.{List};
    ghost use Rattle.nl_base.specs.declared.rule.Refusal.{Refusal};
    ghost use Rattle.vlog_values.specs.declared.module.Module.{Module};

    ghost refusals: { Self → Module → List Refusal };

    /// The first object of the module that breaks the rule.
    fn first(&self, alloc: Global, scope: &ModuleScope) -> Result<Option<Refusal>, NoMemory>
        ensures { IfOk result (λ found. found
            ≡ first_of (refusals self.now scope.now.module.now)) };
}

/// The first object of the modules that breaks the rule.
pub fn first_in_scopes<R: ScopeRule>(
    alloc: Global,
    rule: &R,
    scopes: &[ModuleScope],
) -> Result<Option<Refusal>, NoMemory>
    ensures { IfOk result (λ found. found
        ≡ first_of (flat_map (λ scope. R.refusals rule.now scope.module.now) scopes.now)) }
{
    for scope in scopes {
        if let Some(refusal) = rule.first(alloc, scope)? {
            return Ok(Some(refusal));
        }
    }
    Ok(None)
}
