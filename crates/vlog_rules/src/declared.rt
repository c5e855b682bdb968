// Names that are declared twice.
ghost use Rattle.std.specs.Prelude.{◌≡◌, ◌++◌, IfOk, OnOk, map, flat_map};
ghost use Rattle.nl_base.specs.declared.rule.Rule.TheVariants.{G4};
ghost use Rattle.vlog_design.specs.declared.signals.Kind.TheVariants.{Parameter, Instance};
ghost use Rattle.vlog_design.specs.Names.{declarations, declared_as, declared_in_header, declared_in_item, declared_params, declared_port};
ghost use Rattle.vlog_design.specs.Rules.{declared_twice, first_of, refused};
ghost use Rattle.vlog_rules.specs.Seen.{declarations_of};

use crate::counts::count_names;
use crate::noting::first_clash;
use crate::refusals::refuse;
use nl_base::{NoMemory, Refusal, Rule, Text};
use std::alloc::Global;
use vlog_design::signals::Kind;
use vlog_values::{Header, ItemV, Module, ParamDecl, ParamSet, PortDecl, VInst};

fn push_names<'a>(
    kind: Kind,
    names: &'a [Text],
    out: &mut Vec<(Kind, &'a [u8])>,
) -> Result<(), NoMemory>
    ensures added { OnOk result (declarations_of out.new.items
        ≡ declarations_of out.old.items ++ declared_as kind names.now) }
{
    for name in names {
        out.push((kind, name.bytes()))?;
    }
    Ok(())
}

fn push_sets<'a>(sets: &'a [ParamSet], out: &mut Vec<(Kind, &'a [u8])>) -> Result<(), NoMemory>
    ensures added { OnOk result (declarations_of out.new.items
        ≡ declarations_of out.old.items ++ declared_as Parameter (map (λ set. set.name) sets.now)) }
{
    for set in sets {
        out.push((Kind::Parameter, set.name.bytes()))?;
    }
    Ok(())
}

/// Adds the declarations of parameters.
pub(crate) fn push_params<'a>(
    decls: &'a [ParamDecl],
    out: &mut Vec<(Kind, &'a [u8])>,
) -> Result<(), NoMemory>
    ensures added { OnOk result (declarations_of out.new.items
        ≡ declarations_of out.old.items ++ flat_map declared_params decls.now) }
{
    for decl in decls {
        push_sets(decl.sets.items(), out)?;
    }
    Ok(())
}

fn push_instances<'a>(insts: &'a [VInst], out: &mut Vec<(Kind, &'a [u8])>) -> Result<(), NoMemory>
    ensures added { OnOk result (declarations_of out.new.items
        ≡ declarations_of out.old.items
        ++ declared_as Instance (map (λ instance. instance.name) insts.now)) }
{
    for instance in insts {
        out.push((Kind::Instance, instance.name.bytes()))?;
    }
    Ok(())
}

fn push_ports<'a>(names: &'a [Text], out: &mut Vec<(Kind, &'a [u8])>) -> Result<(), NoMemory>
    ensures added { OnOk result (declarations_of out.new.items
        ≡ declarations_of out.old.items ++ flat_map declared_port names.now) }
{
    for name in names {
        out.push((Kind::InHeader, name.bytes()))?;
        out.push((Kind::Direction, name.bytes()))?;
    }
    Ok(())
}

fn push_decls<'a>(decls: &'a [PortDecl], out: &mut Vec<(Kind, &'a [u8])>) -> Result<(), NoMemory>
    ensures added { OnOk result (declarations_of out.new.items
        ≡ declarations_of out.old.items
        ++ flat_map (λ decl. flat_map declared_port decl.names) decls.now) }
{
    for decl in decls {
        push_ports(decl.names.items(), out)?;
    }
    Ok(())
}

/// Adds the declarations of a header.
pub(crate) fn push_header<'a>(
    header: &'a Header,
    out: &mut Vec<(Kind, &'a [u8])>,
) -> Result<(), NoMemory>
    ensures added { OnOk result (declarations_of out.new.items
        ≡ declarations_of out.old.items ++ declared_in_header header.now) }
{
    match header {
        Header::Names(names) => push_names(Kind::InHeader, names.items(), out),
        Header::Decls(decls) => push_decls(decls.items(), out),
    }
}

/// Adds the declarations of an item.
pub(crate) fn push_item<'a>(
    item: &'a ItemV,
    out: &mut Vec<(Kind, &'a [u8])>,
) -> Result<(), NoMemory>
    ensures added { OnOk result (declarations_of out.new.items
        ≡ declarations_of out.old.items ++ declared_in_item item.now) }
{
    match item {
        ItemV::Port(decl) => push_names(Kind::Direction, decl.names.items(), out),
        ItemV::Net(decl) => push_names(Kind::NetDeclaration, decl.names.items(), out),
        ItemV::Param(decl) => push_sets(decl.sets.items(), out),
        ItemV::Instances(statement) => push_instances(statement.insts.items(), out),
        ItemV::Assign(_) => Ok(()),
        ItemV::Defparam(_) => Ok(()),
    }
}

fn push_items<'a>(items: &'a [ItemV], out: &mut Vec<(Kind, &'a [u8])>) -> Result<(), NoMemory>
    ensures added { OnOk result (declarations_of out.new.items
        ≡ declarations_of out.old.items ++ flat_map declared_in_item items.now) }
{
    for item in items {
        push_item(item, out)?;
    }
    Ok(())
}

/// The declarations of a module in the order of the text.
#[tactic(auto, unfolding(vlog_design::specs::Names::declarations))]
pub fn declarations_in<'a>(alloc: Global, m: &'a Module) -> Result<Vec<(Kind, &'a [u8])>, NoMemory>
    ensures { IfOk result (λ found. declarations_of found.items ≡ declarations m.now) }
{
    let mut found = Vec::with_capacity(alloc, count_names(m))?;
    push_params(m.params.items(), &mut found)?;
    push_header(&m.header, &mut found)?;
    push_items(m.items.items(), &mut found)?;
    Ok(found)
}

/// The first declaration of the module that clashes with one before it.
pub fn declared_twice(alloc: Global, m: &Module) -> Result<Option<Refusal>, NoMemory>
    ensures { IfOk result (λ found. found
        ≡ first_of (map (refused G4 m.now.name) (declared_twice m.now))) }
{
    let clash = first_clash(alloc, m)?;
    match clash {
        None => Ok(None),
        Some(name) => Ok(Some(refuse(alloc, Rule::G4, m.name.bytes(), name)?)),
    }
}
