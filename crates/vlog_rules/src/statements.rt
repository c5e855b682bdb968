// Rules on what a statement of instances says, one statement after the other.
ghost use Rattle.std.specs.Prelude.{◌≡◌, IfOk, flat_map, map, option_map};
ghost use Rattle.vlog_design.specs.Names.{instance_statement};
ghost use Rattle.vlog_design.specs.Rules.{each_statement, first_of, refused};

use nl_base::{NoMemory, Refusal};
use std::alloc::Global;
use vlog_values::{Instances, ItemV, Module, VInst};

/// A rule that looks at one statement of instances after the other.
pub trait StatementRule {
    ghost use Rattle.std.specs.Prelude.{List, ℕ};
    ghost use Rattle.nl_base.specs.declared.rule.Rule.{Rule};
    ghost use Rattle.vlog_values.specs.declared.statement.Instances.{Instances};

    ghost number: { Self → Rule };

    ghost objects: { Self → Instances → List (List (List ℕ)) };

    /// The first object of the statement, in a module of this name, that breaks the rule.
    fn first(
        &self,
        alloc: Global,
        cell: &[u8],
        statement: &Instances,
    ) -> Result<Option<Refusal>, NoMemory>
        ensures { IfOk result (λ found. found
            ≡ option_map (refused (number self.now) cell.now)
            (first_of (objects self.now statement.now))) };
}

fn first_in_item<R: StatementRule>(
    alloc: Global,
    rule: &R,
    cell: &[u8],
    item: &ItemV,
) -> Result<Option<Refusal>, NoMemory>
    ensures { IfOk result (λ found. found
        ≡ option_map (refused (R.number rule.now) cell.now)
        (first_of (flat_map (R.objects rule.now) (instance_statement item.now)))) }
{
    match item {
        ItemV::Instances(statement) => rule.first(alloc, cell, statement),
        ItemV::Port(_) => Ok(None),
        ItemV::Net(_) => Ok(None),
        ItemV::Param(_) => Ok(None),
        ItemV::Assign(_) => Ok(None),
        ItemV::Defparam(_) => Ok(None),
    }
}

fn first_in_items<R: StatementRule>(
    alloc: Global,
    rule: &R,
    cell: &[u8],
    items: &[ItemV],
) -> Result<Option<Refusal>, NoMemory>
    ensures { IfOk result (λ found. found
        ≡ option_map (refused (R.number rule.now) cell.now)
        (first_of (flat_map (R.objects rule.now) (flat_map instance_statement items.now)))) }
{
    for item in items {
        if let Some(refusal) = first_in_item(alloc, rule, cell, item)? {
            return Ok(Some(refusal));
        }
    }
    Ok(None)
}

/// The first object of the module that breaks the rule.
pub fn first_in_statements<R: StatementRule>(
    alloc: Global,
    rule: &R,
    m: &Module,
) -> Result<Option<Refusal>, NoMemory>
    ensures { IfOk result (λ found. found
        ≡ first_of (map (refused (R.number rule.now) m.now.name)
        (each_statement (R.objects rule.now) m.now))) }
{
    let found = first_in_items(alloc, rule, m.name.bytes(), m.items.items())?;
    Ok(found)
}

/// A rule that looks at one instance after the other.
pub trait InstanceRule {
    ghost use Rattle.std.specs.Prelude.{List, ℕ};
    ghost use Rattle.nl_base.specs.declared.rule.Rule.{Rule};
    ghost use Rattle.vlog_values.specs.declared.statement.VInst.{VInst};

    ghost number: { Self → Rule };

    ghost objects: { Self → List ℕ → VInst → List (List (List ℕ)) };

    /// The first object of the instance of a module, in a module of this name, that breaks the rule.
    fn first(
        &self,
        alloc: Global,
        cell: &[u8],
        of: &[u8],
        instance: &VInst,
    ) -> Result<Option<Refusal>, NoMemory>
        ensures { IfOk result (λ found. found
            ≡ option_map (refused (number self.now) cell.now)
            (first_of (objects self.now of.now instance.now))) };
}

/// A rule on instances, as one on statements.
#[derive(Drop)]
pub struct EachInstance<R> {
    pub rule: R,
}

fn first_in_instances<R: InstanceRule>(
    alloc: Global,
    rule: &R,
    cell: &[u8],
    of: &[u8],
    insts: &[VInst],
) -> Result<Option<Refusal>, NoMemory>
    ensures { IfOk result (λ found. found
        ≡ option_map (refused (R.number rule.now) cell.now)
        (first_of (flat_map (R.objects rule.now of.now) insts.now))) }
{
    for instance in insts {
        if let Some(refusal) = rule.first(alloc, cell, of, instance)? {
            return Ok(Some(refusal));
        }
    }
    Ok(None)
}

impl<R: InstanceRule> StatementRule for EachInstance<R> {
    ghost use Rattle.vlog_design.specs.Rules.{in_statement};

    ghost number = { λ each. R.number each.rule };

    ghost objects = { λ each. in_statement (R.objects each.rule) };

    fn first(
        &self,
        alloc: Global,
        cell: &[u8],
        statement: &Instances,
    ) -> Result<Option<Refusal>, NoMemory> {
        first_in_instances(
            alloc,
            &self.rule,
            cell,
            statement.module.bytes(),
            statement.insts.items(),
        )
    }
}
