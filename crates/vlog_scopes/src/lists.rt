// Lists and sets of the names that a module declares.
ghost use Rattle.std.specs.Prelude.{ℕ, List, ◌≡◌, ◌++◌, [], flat_map, IfOk, OnOk};
ghost use Rattle.vlog_design.specs.Names.{has_name, header_names, is_declared, port_names};
ghost use Rattle.vlog_design.specs.Rules.{declared_twice};
ghost use Rattle.vlog_design.specs.Tables.{names_of};
ghost use Rattle.vlog_rules.specs.Seen.{declarations_of};
ghost use Rattle.vlog_scopes.specs.Distinct.{Distinct};
ghost use Rattle.vlog_scopes.specs.Implicit.{declared_names};
ghost use Rattle.vlog_scopes.specs.Ranged.{lent_names};

use crate::ranged::Ranged;
use nl_base::NoMemory;
use std::alloc::Global;
use vlog_design::names::NameSet;
use vlog_design::signals::Kind;
use vlog_rules::declared::declarations_in;
use vlog_rules::lists::{name_set, push_texts};
use vlog_values::{Header, Module, PortDecl};

/// For how many names, uses or instances of a module a list has room from the first: a small module has no more.
pub(crate) const USUAL: usize = 32;

fn push_decls<'a>(decls: &'a [PortDecl], out: &mut Vec<&'a [u8]>) -> Result<(), NoMemory>
    ensures added { OnOk result (names_of out.new.items
        ≡ names_of out.old.items ++ flat_map (λ decl. decl.names) decls.now) }
{
    for decl in decls {
        push_texts(decl.names.items(), out)?;
    }
    Ok(())
}

#[tactic(auto, unfolding(vlog_design::specs::Names::header_names))]
fn push_ports<'a>(header: &'a Header, out: &mut Vec<&'a [u8]>) -> Result<(), NoMemory>
    ensures added { OnOk result (names_of out.new.items
        ≡ names_of out.old.items ++ header_names header.now) }
{
    match header {
        Header::Names(names) => push_texts(names.items(), out),
        Header::Decls(decls) => push_decls(decls.items(), out),
    }
}

/// The names of the module's ports, in the order of the header.
pub fn ports_in<'a>(alloc: Global, m: &'a Module) -> Result<Vec<&'a [u8]>, NoMemory>
    ensures { IfOk result (λ names. names_of names.items ≡ port_names m.now) }
{
    let mut names = Vec::new(alloc);
    push_ports(&m.header, &mut names)?;
    Ok(names)
}

/// The set of names that differ, in their order.
pub fn distinct<'a>(alloc: Global, names: &[&'a [u8]]) -> Result<NameSet<'a>, NoMemory>
    requires { Distinct (names_of names.now) }
    ensures { IfOk result (λ set. set ≡ names_of names.now) }
{
    let mut set = NameSet::empty(alloc);
    for name in names {
        set.add(*name)?;
    }
    Ok(set)
}

/// The set of the declared names, in their order, which differ.
pub fn ranged_set<'a>(alloc: Global, ranged: &[Ranged<'a>]) -> Result<NameSet<'a>, NoMemory>
    requires { Distinct (lent_names ranged.now) }
    ensures { IfOk result (λ set. set ≡ lent_names ranged.now) }
{
    let mut set = NameSet::empty(alloc);
    for one in ranged {
        set.add(one.name)?;
    }
    Ok(set)
}

/// The set of the module's ports, in the order of the header.
pub fn port_set<'a>(alloc: Global, m: &'a Module) -> Result<NameSet<'a>, NoMemory>
    requires { declared_twice m.now ≡ [] }
    ensures { IfOk result (λ set. set ≡ port_names m.now) }
{
    let names = ports_in(alloc, m)?;
    let set = distinct(alloc, &names)?;
    Ok(set)
}

fn names_declared<'a>(
    alloc: Global,
    declarations: &[(Kind, &'a [u8])],
) -> Result<Vec<&'a [u8]>, NoMemory>
    ensures { IfOk result (λ names. names_of names.items
        ≡ declared_names (declarations_of declarations.now)) }
{
    let mut names = Vec::new(alloc);
    for declaration in declarations {
        names.push(declaration.1)?;
    }
    Ok(names)
}

/// The set of the names that the module declares.
pub fn declared_set<'a>(alloc: Global, m: &'a Module) -> Result<NameSet<'a>, NoMemory>
    ensures { IfOk result (λ set. (name : List ℕ) → has_name set name ≡ is_declared m.now name) }
{
    let declarations = declarations_in(alloc, m)?;
    let names = names_declared(alloc, &declarations)?;
    let set = name_set(alloc, &names)?;
    Ok(set)
}
