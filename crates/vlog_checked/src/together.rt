// Rules that are tried on one module after the other together.
ghost use Rattle.std.specs.Prelude.{◌≡◌, ◌++◌, IfOk};

use nl_base::{NoMemory, Refusal};
use std::alloc::Global;
use vlog_rules::passes::ModuleRule;
use vlog_values::Module;

/// Two rules that are tried on a module one behind the other, so that modules that break neither are gone over once.
#[derive(Drop)]
pub(crate) struct Both<A, B> {
    pub first: A,
    pub second: B,
}

impl<A: ModuleRule, B: ModuleRule> ModuleRule for Both<A, B> {
    ghost use Rattle.std.specs.Prelude.{◌++◌};

    ghost refusals = { λ both m. A.refusals both.first m ++ B.refusals both.second m };

    fn first(&self, alloc: Global, m: &Module) -> Result<Option<Refusal>, NoMemory> {
        if let Some(refusal) = self.first.first(alloc, m)? {
            return Ok(Some(refusal));
        }
        self.second.first(alloc, m)
    }
}
