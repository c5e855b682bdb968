// Names that stand twice in a list.
ghost use Rattle.std.specs.Prelude.{◌≡◌, [], bytes_eq, map, IfOk, option_copied};
ghost use Rattle.vlog_design.specs.Names.{clashing, has_name};
ghost use Rattle.vlog_design.specs.Rules.{conn_names, first_of};
ghost use Rattle.vlog_design.specs.Tables.{names_of};

use nl_base::NoMemory;
use std::alloc::Global;
use vlog_design::names::NameSet;
use vlog_values::{Conns, Module, NamedConn, ParamSet};

/// Up to how many names are compared with each other, since a set of so few takes longer.
const FEW: usize = 8;

/// Whether the name is one of these.
fn is_among(names: &[&[u8]], name: &[u8]) -> bool
    ensures { result ≡ has_name (names_of names.now) name.now }
{
    for other in names {
        if name == *other {
            return true;
        }
    }
    false
}

/// The first of a few names that stands in the list before, found without a set.
fn first_among<'a>(names: &[&'a [u8]]) -> Option<&'a [u8]>
    ensures { option_copied result ≡ first_of (clashing bytes_eq [] (names_of names.now)) }
{
    for place in 0..names.len() {
        if is_among(&names[..place], names[place]) {
            return Some(names[place]);
        }
    }
    None
}

/// The first of many names that stands in the list before.
fn first_in_set<'a>(alloc: Global, names: &[&'a [u8]]) -> Result<Option<&'a [u8]>, NoMemory>
    ensures { IfOk result (λ found. option_copied found
        ≡ first_of (clashing bytes_eq [] (names_of names.now))) }
{
    let mut seen = NameSet::empty(alloc);
    for name in names {
        let new = seen.add(*name)?;
        if !new {
            return Ok(Some(*name));
        }
    }
    Ok(None)
}

/// The first name that stands in the list before.
pub fn first_repeated<'a>(alloc: Global, names: &[&'a [u8]]) -> Result<Option<&'a [u8]>, NoMemory>
    ensures { IfOk result (λ found. option_copied found
        ≡ first_of (clashing bytes_eq [] (names_of names.now))) }
{
    if names.len() <= FEW {
        return Ok(first_among(names));
    }
    first_in_set(alloc, names)
}

/// The names of modules.
pub fn names_of_modules<'a>(alloc: Global, modules: &'a [Module]) -> Result<Vec<&'a [u8]>, NoMemory>
    ensures { IfOk result (λ names. names_of names.items ≡ map (λ m. m.name) modules.now) }
{
    let mut names = Vec::new(alloc);
    for m in modules {
        names.push(m.name.bytes())?;
    }
    Ok(names)
}

/// The names of parameters.
fn names_of_params<'a>(alloc: Global, sets: &'a [ParamSet]) -> Result<Vec<&'a [u8]>, NoMemory>
    ensures { IfOk result (λ names. names_of names.items ≡ map (λ set. set.name) sets.now) }
{
    let mut names = Vec::new(alloc);
    for set in sets {
        names.push(set.name.bytes())?;
    }
    Ok(names)
}

/// The first parameter that is given again.
pub fn repeated_param<'a>(alloc: Global, sets: &'a [ParamSet]) -> Result<Option<&'a [u8]>, NoMemory>
    ensures { IfOk result (λ found. option_copied found
        ≡ first_of (clashing bytes_eq [] (map (λ set. set.name) sets.now))) }
{
    if sets.len() < 2 {
        return Ok(None);
    }
    let names = names_of_params(alloc, sets)?;
    let found = first_repeated(alloc, &names)?;
    Ok(found)
}

/// Whether one of the connections names the port.
fn is_named(conns: &[NamedConn], port: &[u8]) -> bool
    ensures { result ≡ has_name (map (λ conn. conn.port) conns.now) port.now }
{
    for conn in conns {
        if port == conn.port.bytes() {
            return true;
        }
    }
    false
}

/// The first port that a few connections name again, found without a list of the ports.
fn first_named_again<'a>(conns: &'a [NamedConn]) -> Option<&'a [u8]>
    ensures { option_copied result
        ≡ first_of (clashing bytes_eq [] (map (λ conn. conn.port) conns.now)) }
{
    for place in 0..conns.len() {
        let port = conns[place].port.bytes();
        if is_named(&conns[..place], port) {
            return Some(port);
        }
    }
    None
}

fn names_of_named<'a>(alloc: Global, conns: &'a [NamedConn]) -> Result<Vec<&'a [u8]>, NoMemory>
    ensures { IfOk result (λ names. names_of names.items ≡ map (λ conn. conn.port) conns.now) }
{
    let mut names = Vec::new(alloc);
    for conn in conns {
        names.push(conn.port.bytes())?;
    }
    Ok(names)
}

fn repeated_in_named<'a>(
    alloc: Global,
    conns: &'a [NamedConn],
) -> Result<Option<&'a [u8]>, NoMemory>
    ensures { IfOk result (λ found. option_copied found
        ≡ first_of (clashing bytes_eq [] (map (λ conn. conn.port) conns.now))) }
{
    if conns.len() <= FEW {
        return Ok(first_named_again(conns));
    }
    let names = names_of_named(alloc, conns)?;
    let found = first_in_set(alloc, &names)?;
    Ok(found)
}

/// The first port that connections name again.
#[tactic(auto, unfolding(vlog_design::specs::Names::clashing))]
pub fn repeated_port<'a>(alloc: Global, conns: &'a Conns) -> Result<Option<&'a [u8]>, NoMemory>
    ensures { IfOk result (λ found. option_copied found
        ≡ first_of (clashing bytes_eq [] (conn_names conns.now))) }
{
    match conns {
        Conns::Named(conns) => repeated_in_named(alloc, conns.items()),
        Conns::Order(_) => Ok(None),
    }
}
