// Ports that are declared again as nets.
use nl_base::{NoMemory, Refusal};
use std::alloc::Global;
use vlog_rules::passes::{ModuleScope, ScopeRule};
use vlog_rules::redeclared::other_range;

/// A port that is declared again as a net has the same range.
#[derive(Clone, Copy)]
pub struct Redeclared;

impl ScopeRule for Redeclared {
    ghost use Rattle.std.specs.Prelude.{map};
    ghost use Rattle.nl_base.specs.declared.rule.Rule.TheVariants.{G15};
    ghost use Rattle.vlog_design.specs.Rules.{other_ranges, refused};

    ghost refusals = { λ rule m. map (refused G15 m.name) (other_ranges m) };

    fn first(&self, alloc: Global, scope: &ModuleScope) -> Result<Option<Refusal>, NoMemory> {
        other_range(alloc, scope.module, &scope.table)
    }
}
