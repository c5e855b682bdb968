// Statements of instances: the modules that they name, and the parameters that they give.
ghost use Rattle.std.specs.Prelude.{◌≡◌, map, is_some, IfOk};
ghost use Rattle.vlog_design.specs.Reach.{module_named};
ghost use Rattle.vlog_design.specs.Rules.{first_of, modules_twice, no_top};

use crate::refusals::{refuse, refuse_in_statement};
use crate::repeats::{first_repeated, names_of_modules, repeated_param};
use crate::statements::StatementRule;
use nl_base::{NoMemory, Refusal, Rule};
use std::alloc::Global;
use vlog_design::names::NameSet;
use vlog_values::{Instances, Module, VlogFile};

/// The module of an instance is there.
#[derive(Drop)]
pub struct UnknownModules<'a> {
    pub modules: &'a [Module],
    pub names: NameSet<'a>,
    ghost are_named: { names ≡ map (λ m. m.name) modules.now },
}

impl<'a> StatementRule for UnknownModules<'a> {
    ghost use Rattle.nl_base.specs.declared.rule.Rule.TheVariants.{G3};
    ghost use Rattle.vlog_design.specs.Rules.{unknown_module_in};

    ghost number = { λ rule. G3 };

    ghost objects = { λ rule. unknown_module_in rule.modules.now };

    fn first(
        &self,
        alloc: Global,
        cell: &[u8],
        statement: &Instances,
    ) -> Result<Option<Refusal>, NoMemory> {
        let of = statement.module.bytes();
        if self.names.has(of) {
            return Ok(None);
        }
        let insts = statement.insts.items();
        Ok(Some(refuse_in_statement(alloc, Rule::G3, cell, insts, of)?))
    }
}

/// No parameter is given twice on one statement.
#[derive(Clone, Copy)]
pub struct ParamsTwice;

impl StatementRule for ParamsTwice {
    ghost use Rattle.nl_base.specs.declared.rule.Rule.TheVariants.{G14};
    ghost use Rattle.vlog_design.specs.Rules.{params_twice_in};

    ghost number = { λ rule. G14 };

    ghost objects = { λ rule. params_twice_in };

    fn first(
        &self,
        alloc: Global,
        cell: &[u8],
        statement: &Instances,
    ) -> Result<Option<Refusal>, NoMemory> {
        let repeated = repeated_param(alloc, statement.params.items())?;
        let insts = statement.insts.items();
        match repeated {
            None => Ok(None),
            Some(name) => Ok(Some(refuse_in_statement(alloc, Rule::G14, cell, insts, name)?)),
        }
    }
}

#[tactic(auto, unfolding(vlog_design::specs::Reach::module_named))]
fn has_module(modules: &[Module], name: &[u8]) -> bool
    ensures { result ≡ is_some (module_named modules.now name.now) }
{
    for m in modules {
        if name == m.name.bytes() {
            return true;
        }
    }
    false
}

/// There is a module of the top's name.
pub fn no_top(alloc: Global, file: &VlogFile, top: &[u8]) -> Result<Option<Refusal>, NoMemory>
    ensures { IfOk result (λ found. found ≡ first_of (no_top file.now top.now)) }
{
    if has_module(file.modules.items(), top) {
        return Ok(None);
    }
    Ok(Some(refuse(alloc, Rule::G1, b"", top)?))
}

/// No two modules of the file have one name.
pub fn module_twice(alloc: Global, file: &VlogFile) -> Result<Option<Refusal>, NoMemory>
    ensures { IfOk result (λ found. found ≡ first_of (modules_twice file.now)) }
{
    let names = names_of_modules(alloc, file.modules.items())?;
    let repeated = first_repeated(alloc, &names)?;
    match repeated {
        None => Ok(None),
        Some(name) => Ok(Some(refuse(alloc, Rule::G2, b"", name)?)),
    }
}
