// The connections of instances.
ghost use Rattle.std.specs.Prelude.{◌≡◌, [], ◌∷◌, not, find, length, map, nat_lt, option_copied, option_map};
ghost use Rattle.vlog_design.specs.Names.{has_name};
ghost use Rattle.vlog_design.specs.Rules.{conn_count, conn_names, ports_named};
ghost use Rattle.vlog_design.specs.Tables.{modules_of};

use crate::library::ModulePorts;
use crate::refusals::{refuse, refuse_two};
use crate::repeats::repeated_port;
use crate::statements::InstanceRule;
use nl_base::{NoMemory, Refusal, Rule};
use std::alloc::Global;
use vlog_design::names::NameSet;
use vlog_values::{Conns, NamedConn, VInst};

/// The first port that connections name and that is none of these.
fn first_outside<'a>(ports: &NameSet, conns: &'a [NamedConn]) -> Option<&'a [u8]>
    ensures { option_copied result
        ≡ find (λ port. not (has_name ports.now port)) (map (λ conn. conn.port) conns.now) }
{
    for conn in conns {
        if !ports.has(conn.port.bytes()) {
            return Some(conn.port.bytes());
        }
    }
    None
}

/// The port that the first connection names.
fn first_named<'a>(conns: &'a [NamedConn]) -> Option<&'a [u8]>
    ensures { option_copied result
        ≡ find (λ port. not (has_name [] port)) (map (λ conn. conn.port) conns.now) }
{
    match conns {
        [] => None,
        [first, ..] => Some(first.port.bytes()),
    }
}

/// The first port that connections name and the module of this name has not. The module is looked up once.
fn unknown_named<'a>(library: &ModulePorts, of: &[u8], conns: &'a [NamedConn]) -> Option<&'a [u8]>
    ensures { option_copied result
        ≡ find (λ port. not (has_name
        (ports_named (modules_of library.now.modules.items) of.now) port))
        (map (λ conn. conn.port) conns.now) }
{
    match library.ports(of) {
        None => first_named(conns),
        Some(ports) => first_outside(ports, conns),
    }
}

fn unknown_port<'a>(library: &ModulePorts, of: &[u8], conns: &'a Conns) -> Option<&'a [u8]>
    ensures { option_copied result
        ≡ find (λ port. not (has_name
        (ports_named (modules_of library.now.modules.items) of.now) port)) (conn_names conns.now) }
{
    match conns {
        Conns::Named(conns) => unknown_named(library, of, conns.items()),
        Conns::Order(_) => None,
    }
}

/// Connections by name are to ports that the instance's module has.
#[derive(Clone, Copy)]
pub struct UnknownPorts<'a, 'm> {
    pub library: &'a ModulePorts<'m>,
}

impl<'a, 'm> InstanceRule for UnknownPorts<'a, 'm> {
    ghost use Rattle.nl_base.specs.declared.rule.Rule.TheVariants.{G9};
    ghost use Rattle.vlog_design.specs.Rules.{unknown_ports_in};
    ghost use Rattle.vlog_design.specs.Tables.{modules_of};

    ghost number = { λ rule. G9 };

    ghost objects = { λ rule. unknown_ports_in (modules_of rule.library.now.modules.items) };

    fn first(
        &self,
        alloc: Global,
        cell: &[u8],
        of: &[u8],
        instance: &VInst,
    ) -> Result<Option<Refusal>, NoMemory> {
        match unknown_port(self.library, of, &instance.conns) {
            None => Ok(None),
            Some(port) => Ok(Some(refuse_two(alloc, Rule::G9, cell, instance.name.bytes(), port)?)),
        }
    }
}

/// No port is connected by name twice.
#[derive(Clone, Copy)]
pub struct PortsTwice;

impl InstanceRule for PortsTwice {
    ghost use Rattle.nl_base.specs.declared.rule.Rule.TheVariants.{G10};
    ghost use Rattle.vlog_design.specs.Rules.{ports_twice_in};

    ghost number = { λ rule. G10 };

    ghost objects = { λ rule. ports_twice_in };

    fn first(
        &self,
        alloc: Global,
        cell: &[u8],
        of: &[u8],
        instance: &VInst,
    ) -> Result<Option<Refusal>, NoMemory> {
        let repeated = repeated_port(alloc, &instance.conns)?;
        match repeated {
            None => Ok(None),
            Some(port) => Ok(Some(refuse_two(
                alloc,
                Rule::G10,
                cell,
                instance.name.bytes(),
                port,
            )?)),
        }
    }
}

/// Whether there are more connections in order than the module of this name has ports.
fn has_extra(library: &ModulePorts, of: &[u8], conns: &Conns) -> bool
    ensures { result ≡ nat_lt (length (ports_named (modules_of library.now.modules.items) of.now))
        (conn_count conns.now) }
{
    match conns {
        Conns::Named(_) => false,
        Conns::Order(values) => library.port_count(of) < values.len(),
    }
}

/// There are no more connections in order than the instance's module has ports.
#[derive(Clone, Copy)]
pub struct ExtraConnections<'a, 'm> {
    pub library: &'a ModulePorts<'m>,
}

impl<'a, 'm> InstanceRule for ExtraConnections<'a, 'm> {
    ghost use Rattle.nl_base.specs.declared.rule.Rule.TheVariants.{G11};
    ghost use Rattle.vlog_design.specs.Rules.{extra_connections};
    ghost use Rattle.vlog_design.specs.Tables.{modules_of};

    ghost number = { λ rule. G11 };

    ghost objects = { λ rule. extra_connections (modules_of rule.library.now.modules.items) };

    fn first(
        &self,
        alloc: Global,
        cell: &[u8],
        of: &[u8],
        instance: &VInst,
    ) -> Result<Option<Refusal>, NoMemory> {
        if has_extra(self.library, of, &instance.conns) {
            return Ok(Some(refuse(alloc, Rule::G11, cell, instance.name.bytes())?));
        }
        Ok(None)
    }
}
