// The findings of a design.
ghost use Rattle.std.specs.Prelude.{ℕ, ◌≡◌, ◌<◌, ◌^◌, All, IfOk, OnOk, length, map};
ghost use Rattle.std.specs.List.{range_with_len};
ghost use Rattle.flat_classes.specs.Groups.{AreGroupNumbers, AreMembers};
ghost use Rattle.flat_classes.specs.Terminals.{AreFlatClasses};
ghost use Rattle.net_hier.specs.Constants.{ConstantNames};
ghost use Rattle.net_lint.specs.Findings.{FoundIn};
ghost use Rattle.net_lint.specs.Found.{FindingsFit, several_in};
ghost use Rattle.net_lint.specs.Groups.{all_sinks, finding_of, first_drivers, is_first, places_found, roles_of, same_finding};
ghost use Rattle.net_lint.specs.Lint.{view_of};

use crate::drivers::{Drivers, drivers_by_group};
use crate::role::{Role, is_sink, role_of};
use flat_classes::{Flat, Members};
use net_hier::{Constants, Hier};
use nl_base::NoMemory;
use std::alloc::Global;

/// What is found of each terminal of a group.
#[derive(Clone, Copy)]
pub enum Finding {
    /// They are two or more, and sinks alone.
    Undriven,
    /// It is one sink.
    Floating,
    /// One of them drives, or goes both ways.
    Driven,
}

/// What is found of the terminals of a design, by their places.
#[derive(Drop)]
pub struct Findings {
    /// The sinks that are connected to other sinks alone.
    pub undriven: Vec<u32>,
    /// The sinks that are connected to no other terminal.
    pub floating: Vec<u32>,
    /// For each group its drivers.
    pub drivers: Drivers,
    /// The first drivers of the groups that have two or more.
    pub firsts: Vec<u32>,
}

/// The role of each terminal.
fn roles_of(alloc: Global, hier: &Hier, flat: &Flat) -> Result<Vec<Role>, NoMemory>
    requires { (names : ConstantNames) × AreFlatClasses names hier.now flat.now }
    ensures { IfOk result (λ roles. roles.items ≡ roles_of hier.now.cells flat.now) }
{
    let spots = flat.spots();
    let terminals = flat.terminals();
    let mut roles = Vec::with_capacity(alloc, terminals.len())?;
    for terminal in terminals {
        roles.push(role_of(hier, spots, *terminal))?;
    }
    Ok(roles)
}

/// Whether these are sinks alone.
fn all_sinks(roles: &[Role], places: &[u32]) -> bool
    requires { All (λ place. place < length roles.now) places.now }
    ensures { result ≡ all_sinks roles.now places.now }
{
    for place in places {
        if !is_sink(roles[*place as usize]) {
            return false;
        }
    }
    true
}

/// What is found of each terminal of a group.
fn finding_of(roles: &[Role], places: &[u32]) -> Finding
    requires { All (λ place. place < length roles.now) places.now }
    ensures { result ≡ finding_of roles.now places.now }
{
    if !all_sinks(roles, places) {
        return Finding::Driven;
    }
    if 2 <= places.len() {
        return Finding::Undriven;
    }
    Finding::Floating
}

/// For each group what is found of its terminals.
fn findings_by_group(
    alloc: Global,
    roles: &[Role],
    members: &Members,
) -> Result<Vec<Finding>, NoMemory>
    requires { All (All (λ place. place < length roles.now)) members.now }
    ensures { IfOk result (λ findings. findings.items ≡ map (finding_of roles.now) members.now) }
{
    let mut findings = Vec::with_capacity(alloc, members.count())?;
    for group in 0..members.count() {
        findings.push(finding_of(roles, members.of(group)))?;
    }
    Ok(findings)
}

/// Whether two findings are one.
fn same_finding(a: Finding, b: Finding) -> bool
    ensures { result ≡ same_finding a b }
{
    match a {
        Finding::Undriven => match b {
            Finding::Undriven => true,
            Finding::Floating => false,
            Finding::Driven => false,
        },
        Finding::Floating => match b {
            Finding::Undriven => false,
            Finding::Floating => true,
            Finding::Driven => false,
        },
        Finding::Driven => match b {
            Finding::Undriven => false,
            Finding::Floating => false,
            Finding::Driven => true,
        },
    }
}

/// The places of the terminals in whose groups this is found, in order.
fn places_found(
    alloc: Global,
    flat: &Flat,
    findings: &[Finding],
    finding: Finding,
) -> Result<Vec<u32>, NoMemory>
    requires numbers { AreGroupNumbers flat.now.groups flat.now.count
        (length flat.now.terminals) }
    requires groups { length findings.now ≡ flat.now.count }
    ensures { IfOk result (λ places. places.items ≡ places_found flat.now.groups findings.now
        finding) }
{
    let mut places = Vec::new(alloc);
    for place in 0..flat.terminals().len() {
        let place = place as u32;
        if same_finding(finding, findings[flat.group(place) as usize]) {
            places.push(place)?;
        }
    }
    places.shrink_to_fit();
    Ok(places)
}

/// Whether the drivers are two or more, and this is the first of them.
fn is_first(drivers: &[u32], place: u32) -> bool
    ensures { result ≡ is_first drivers.now place }
{
    match drivers {
        [first, _, ..] => *first == place,
        _ => false,
    }
}

/// The first drivers of the groups that have two or more, in order.
fn first_drivers(alloc: Global, flat: &Flat, drivers: &Drivers) -> Result<Vec<u32>, NoMemory>
    requires numbers { AreGroupNumbers flat.now.groups flat.now.count
        (length flat.now.terminals) }
    requires groups { length drivers.now ≡ flat.now.count }
    ensures { IfOk result (λ firsts. firsts.items
        ≡ first_drivers flat.now.groups drivers.now) }
{
    let mut firsts = Vec::new(alloc);
    for place in 0..flat.terminals().len() {
        let place = place as u32;
        if is_first(drivers.of(flat.group(place) as usize), place) {
            firsts.push(place)?;
        }
    }
    firsts.shrink_to_fit();
    Ok(firsts)
}

/// The findings of a design, by the places of each group's terminals, which are left with it.
pub fn findings_of(
    alloc: Global,
    hier: &Hier,
    _constants: &Constants,
    flat: &Flat,
    members: Members,
) -> Result<Findings, NoMemory>
    requires classes { AreFlatClasses _constants.now hier.now flat.now }
    requires members { AreMembers flat.now.groups flat.now.count members }
    ensures found { IfOk result (λ found. FoundIn (view_of _constants.now hier.now flat.now)
        found.undriven.items found.floating.items (several_in flat.now found)) }
    ensures fit { IfOk result (FindingsFit flat.now) }
{
    let _cells = hier.cells();
    let roles = roles_of(alloc, hier, flat)?;
    let found = findings_by_group(alloc, roles.as_slice(), &members)?;
    let drivers = drivers_by_group(alloc, roles.as_slice(), &members)?;
    drop(members);
    drop(roles);
    Ok(Findings {
        undriven: places_found(alloc, flat, found.as_slice(), Finding::Undriven)?,
        floating: places_found(alloc, flat, found.as_slice(), Finding::Floating)?,
        firsts: first_drivers(alloc, flat, &drivers)?,
        drivers,
    })
}
