// The rules on a module by itself, and those on what its names stand for.
use crate::declared::declared_twice;
use crate::defparams::unknown_instance;
use crate::directions::without_direction;
use crate::passes::{ModuleRule, ModuleScope, ScopeRule};
use crate::selects::bad_select;
use crate::unknown_names::unknown_name;
use crate::wide::too_wide;
use nl_base::{NoMemory, Refusal};
use std::alloc::Global;
use vlog_values::Module;

/// No name is declared twice.
#[derive(Clone, Copy)]
pub struct DeclaredTwice;

impl ModuleRule for DeclaredTwice {
    ghost use Rattle.std.specs.Prelude.{map};
    ghost use Rattle.nl_base.specs.declared.rule.Rule.TheVariants.{G4};
    ghost use Rattle.vlog_design.specs.Rules.{declared_twice, refused};

    ghost refusals = { λ rule m. map (refused G4 m.name) (declared_twice m) };

    fn first(&self, alloc: Global, m: &Module) -> Result<Option<Refusal>, NoMemory> {
        declared_twice(alloc, m)
    }
}

/// The ports have directions, and nothing else has.
#[derive(Clone, Copy)]
pub struct Directions;

impl ModuleRule for Directions {
    ghost use Rattle.std.specs.Prelude.{map};
    ghost use Rattle.nl_base.specs.declared.rule.Rule.TheVariants.{G5};
    ghost use Rattle.vlog_design.specs.Rules.{refused, without_direction};

    ghost refusals = { λ rule m. map (refused G5 m.name) (without_direction m) };

    fn first(&self, alloc: Global, m: &Module) -> Result<Option<Refusal>, NoMemory> {
        without_direction(alloc, m)
    }
}

/// Values for parameters are given to instances that the module has.
#[derive(Clone, Copy)]
pub struct UnknownInstances;

impl ModuleRule for UnknownInstances {
    ghost use Rattle.std.specs.Prelude.{map};
    ghost use Rattle.nl_base.specs.declared.rule.Rule.TheVariants.{G17};
    ghost use Rattle.vlog_design.specs.Rules.{refused, unknown_instances};

    ghost refusals = { λ rule m. map (refused G17 m.name) (unknown_instances m) };

    fn first(&self, alloc: Global, m: &Module) -> Result<Option<Refusal>, NoMemory> {
        unknown_instance(alloc, m)
    }
}

/// Names in expressions are ports or nets.
#[derive(Clone, Copy)]
pub struct UnknownNames;

impl ScopeRule for UnknownNames {
    ghost use Rattle.std.specs.Prelude.{map};
    ghost use Rattle.nl_base.specs.declared.rule.Rule.TheVariants.{G6};
    ghost use Rattle.vlog_design.specs.Rules.{refused, unknown_names};

    ghost refusals = { λ rule m. map (refused G6 m.name) (unknown_names m) };

    fn first(&self, alloc: Global, scope: &ModuleScope) -> Result<Option<Refusal>, NoMemory> {
        unknown_name(alloc, scope.module, &scope.table)
    }
}

/// Selects mean bits.
#[derive(Clone, Copy)]
pub struct BadSelects;

impl ScopeRule for BadSelects {
    ghost use Rattle.std.specs.Prelude.{map};
    ghost use Rattle.nl_base.specs.declared.rule.Rule.TheVariants.{G7};
    ghost use Rattle.vlog_design.specs.Rules.{bad_selects, refused};

    ghost refusals = { λ rule m. map (refused G7 m.name) (bad_selects m) };

    fn first(&self, alloc: Global, scope: &ModuleScope) -> Result<Option<Refusal>, NoMemory> {
        bad_select(alloc, scope.module, &scope.table)
    }
}

/// No port or net has more than 65,536 bits.
#[derive(Clone, Copy)]
pub struct TooWide;

impl ScopeRule for TooWide {
    ghost use Rattle.std.specs.Prelude.{map};
    ghost use Rattle.nl_base.specs.declared.rule.Rule.TheVariants.{G12};
    ghost use Rattle.vlog_design.specs.Rules.{refused, too_wide};

    ghost refusals = { λ rule m. map (refused G12 m.name) (too_wide m) };

    fn first(&self, alloc: Global, scope: &ModuleScope) -> Result<Option<Refusal>, NoMemory> {
        too_wide(alloc, scope.module, &scope.table)
    }
}
