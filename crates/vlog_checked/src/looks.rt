// The rules that need the table of a module's names, on one module after the other: each table is left before the next is made.
ghost use Rattle.std.specs.Prelude.{◌≡◌, ◌≤◌, ◌&&◌, ◌+◌, ◌-◌, ◌∷◌, ◌^◌, [], true, is_none, map, min, IfOk};
ghost use Rattle.std.specs.List.{AllByRecursion};
ghost use Rattle.vlog_checked.specs.ByTables.{AreLooked, IsFreeAlone};
ghost use Rattle.vlog_checked.specs.Tabled.{CanHaveTables};
ghost use Rattle.vlog_design.specs.Rules.{declared_twice};
ghost use Rattle.vlog_design.specs.Tables.{modules_of};
ghost use Rattle.vlog_rules.specs.WrongUses.{has_wrong_use};
ghost use Rattle.vlog_ties.specs.Ties.{modules_in};
ghost use Rattle.vlog_values.specs.Sizes.{module_size};
ghost use Rattle.vlog_values.specs.Values.{IsModule};

use nl_base::NoMemory;
use std::alloc::Global;
use vlog_design::names::NameSet;
use vlog_rules::module_rules::TooWide;
use vlog_rules::passes::{ModuleScope, ScopeRule};
use vlog_scopes::redeclared::Redeclared;
use vlog_scopes::scopes::{DeclaredScope, declared_scope};
use vlog_ties::counts::table_bits;
use vlog_ties::sides::{Sides, sides_in_scope};
use vlog_values::Module;

/// What is seen of modules by the tables of their names.
#[derive(Clone, Copy)]
pub struct Look {
    /// Whether it is seen that none of them breaks a rule that needs a table.
    pub is_free: bool,
    /// Whether it is seen that a declaration declares each of their nets.
    pub is_declared: bool,
    /// The bits of the left sides of all that is tied, or 2^64-1 where there are more.
    pub most: u64,
    /// The bits of the ports and nets, or 2^64-1 where there are more.
    pub bits: u64,
}

/// Whether the names, the selects, the widths and the ranges of a module break no rule, where it is known whether some use is wrong.
fn is_free_alone(alloc: Global, scope: &ModuleScope, wrong: bool) -> Result<bool, NoMemory>
    requires { wrong ≡ has_wrong_use scope.now.module.now }
    ensures { IfOk result (λ free. free ≡ true → IsFreeAlone scope.now.module.now) }
{
    if wrong {
        return Ok(false);
    }
    let wide = TooWide.first(alloc, scope)?;
    if wide.is_some() {
        return Ok(false);
    }
    let other = Redeclared.first(alloc, scope)?;
    Ok(other.is_none())
}

/// Whether a module is free, which is so alone and by the two sides of what it connects and assigns.
fn is_free(alone: bool, sides: &Sides) -> bool
    ensures { result ≡ (alone && is_none sides.now.unequal && is_none sides.now.loose) }
{
    alone && sides.unequal.is_none() && sides.loose.is_none()
}

/// What is seen of a module, where `shown` are the modules below it and `names` their names.
fn look_at(
    alloc: Global,
    names: &NameSet,
    shown: &[ModuleScope],
    m: &Module,
) -> Result<Look, NoMemory>
    requires named { names.now ≡ map (λ m. m.name) (modules_in shown.now) }
    requires once { declared_twice m.now ≡ [] }
    requires valid { IsModule m.now }
    requires small { module_size m.now ≤ 268435456 }
    ensures { IfOk result (AreLooked (modules_in shown.now) (m.now ∷ [])) }
{
    let DeclaredScope { scope, is_declared } = declared_scope(alloc, m)?;
    let sides = sides_in_scope(alloc, names, shown, &scope)?;
    let alone = is_free_alone(alloc, &scope, sides.wrong)?;
    Ok(Look {
        is_free: is_free(alone, &sides),
        is_declared,
        most: sides.most,
        bits: table_bits(&scope.table),
    })
}

/// What is seen of modules, by what is seen of the ones in front and of the others.
fn joined(front: Look, back: Look) -> Look
    ensures free { result.is_free ≡ (front.is_free && back.is_free) }
    ensures declared { result.is_declared ≡ (front.is_declared && back.is_declared) }
    ensures most { result.most ≡ min (front.most + back.most) (2 ^ 64 - 1) }
    ensures bits { result.bits ≡ min (front.bits + back.bits) (2 ^ 64 - 1) }
{
    Look {
        is_free: front.is_free && back.is_free,
        is_declared: front.is_declared && back.is_declared,
        most: front.most.saturating_add(back.most),
        bits: front.bits.saturating_add(back.bits),
    }
}

/// What is seen of the modules, where `shown` are the modules below them and `names` their names.
pub(crate) fn looks_at(
    alloc: Global,
    names: &NameSet,
    shown: &[ModuleScope],
    modules: &[&Module],
) -> Result<Look, NoMemory>
    requires named { names.now ≡ map (λ m. m.name) (modules_in shown.now) }
    requires kept { CanHaveTables (modules_of modules.now) }
    ensures { IfOk result (AreLooked (modules_in shown.now) (modules_of modules.now)) }
{
    let mut look = Look {
        is_free: true,
        is_declared: true,
        most: 0,
        bits: 0,
    };
    for m in modules {
        let next = look_at(alloc, names, shown, *m)?;
        look = joined(look, next);
    }
    Ok(look)
}
