// The nets of a module that no declaration declares.
ghost use Rattle.std.specs.Prelude.{ℕ, List, ◌≡◌, ◌++◌, ◌∷◌, [], ◌&&◌, not, true, bytes_eq, IfOk, OnOk};
ghost use Rattle.std.specs.List.{list_any};
ghost use Rattle.vlog_design.specs.Names.{has_name, implicit_names, is_whole, target_uses};
ghost use Rattle.vlog_design.specs.Tables.{names_of};
ghost use Rattle.vlog_design.specs.Uses.{use_of, uses_of};
ghost use Rattle.vlog_scopes.specs.Implicit.{new_place, new_places, undeclared, used_names};

use crate::lists::declared_set;
use crate::targets::targets_in;
use nl_base::NoMemory;
use std::alloc::Global;
use vlog_design::names::NameSet;
use vlog_design::uses::{UseOf, uses_in};
use vlog_rules::lists::name_set;
use vlog_values::{Module, Select};

pub(crate) fn is_whole(select: Select) -> bool
    ensures { result ≡ is_whole select }
{
    match select {
        Select::All => true,
        Select::One(_) => false,
        Select::Slice(_, _) => false,
    }
}

/// Whether the name stands whole and is not declared.
fn is_undeclared(declared: &NameSet, u: &UseOf) -> bool
    ensures { result ≡ (is_whole u.now.select && not (has_name declared.now u.now.name.now)) }
{
    is_whole(u.select) && !declared.has(u.name)
}

fn push_undeclared<'a>(
    declared: &NameSet,
    u: &UseOf<'a>,
    out: &mut Vec<&'a [u8]>,
) -> Result<(), NoMemory>
    ensures added { OnOk result (names_of out.new.items
        ≡ names_of out.old.items ++ undeclared declared.now (use_of u.now ∷ [])) }
{
    if !is_undeclared(declared, u) {
        return Ok(());
    }
    out.push(u.name)?;
    Ok(())
}

fn undeclared_in<'a>(
    alloc: Global,
    declared: &NameSet,
    uses: &[UseOf<'a>],
) -> Result<Vec<&'a [u8]>, NoMemory>
    ensures { IfOk result (λ names. names_of names.items
        ≡ undeclared declared.now (uses_of uses.now)) }
{
    let mut names = Vec::new(alloc);
    for u in uses {
        push_undeclared(declared, u, &mut names)?;
    }
    Ok(names)
}

/// The set of the names that are not declared and stand whole where a net may be without a declaration: mostly there are none.
fn undeclared_set<'a>(
    alloc: Global,
    declared: &NameSet,
    m: &'a Module,
) -> Result<NameSet<'a>, NoMemory>
    ensures { IfOk result (λ set. (name : List ℕ)
        → has_name set name ≡ (not (has_name declared.now name)
        && list_any (λ u. bytes_eq name u.name && is_whole u.select) (target_uses m.now))) }
{
    let uses = targets_in(alloc, m)?;
    let names = undeclared_in(alloc, declared, &uses)?;
    let set = name_set(alloc, &names)?;
    Ok(set)
}

fn push_new<'a>(
    name: &'a [u8],
    seen: &mut NameSet<'a>,
    out: &mut Vec<&'a [u8]>,
) -> Result<(), NoMemory>
    ensures seen { OnOk result (seen.new ≡ seen.old ++ new_place (λ _. true) seen.old name.now) }
    ensures added { OnOk result (names_of out.new.items
        ≡ names_of out.old.items ++ new_place (λ _. true) seen.old name.now) }
{
    let new = seen.add(name)?;
    if !new {
        return Ok(());
    }
    out.push(name)?;
    Ok(())
}

fn push_use<'a>(
    name: &'a [u8],
    nets: &NameSet,
    seen: &mut NameSet<'a>,
    out: &mut Vec<&'a [u8]>,
) -> Result<(), NoMemory>
    ensures seen { OnOk result (seen.new
        ≡ seen.old ++ new_place (has_name nets.now) seen.old name.now) }
    ensures added { OnOk result (names_of out.new.items
        ≡ names_of out.old.items ++ new_place (has_name nets.now) seen.old name.now) }
{
    if !nets.has(name) {
        return Ok(());
    }
    push_new(name, seen, out)
}

/// The names that are used of these, each once, in the order of first use.
fn new_names<'a>(
    alloc: Global,
    nets: &NameSet,
    uses: &[UseOf<'a>],
) -> Result<Vec<&'a [u8]>, NoMemory>
    ensures { IfOk result (λ names. names_of names.items
        ≡ new_places (has_name nets.now) [] (used_names (uses_of uses.now))) }
{
    let mut seen = NameSet::empty(alloc);
    let mut names = Vec::new(alloc);
    for u in uses {
        push_use(u.name, nets, &mut seen, &mut names)?;
    }
    Ok(names)
}

/// The names of the nets that no declaration declares, in the order of first use.
pub fn implicit_in<'a>(alloc: Global, m: &'a Module) -> Result<Vec<&'a [u8]>, NoMemory>
    ensures { IfOk result (λ names. names_of names.items ≡ implicit_names m.now) }
{
    if !m.implicit {
        return Ok(Vec::new(alloc));
    }
    let declared = declared_set(alloc, m)?;
    let nets = undeclared_set(alloc, &declared, m)?;
    if nets.len() == 0 {
        return Ok(Vec::new(alloc));
    }
    let uses = uses_in(alloc, m)?;
    let names = new_names(alloc, &nets, &uses)?;
    Ok(names)
}
