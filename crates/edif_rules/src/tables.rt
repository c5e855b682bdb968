// The ports and the instances of a cell, with tables in which references find them.
ghost use Rattle.std.specs.Prelude.{◌≡◌, ◌≤◌, None, Some, length, slice_get, IfOk, MatchOption};
ghost use Rattle.edif_lookup.specs.Tables.{named, written};
ghost use Rattle.edif_values.specs.Sizes.{cell_size};
ghost use Rattle.edif_design.specs.CellRules.{port_ident};
ghost use Rattle.edif_design.specs.Parts.{numbered, ports};
ghost use Rattle.edif_rules.specs.Lists.{seen};
ghost use Rattle.edif_rules.specs.Idents.{instance_ident, instances_meaning, ports_meaning};

use crate::parts::ports_of;
use crate::port_names::port_ident;
use edif_lookup::{Definitions, Meaning};
use edif_values::{Cell, Instance, Port};
use nl_base::NoMemory;
use std::alloc::Global;
use std::marker::Model;

/// The numbers and the identifiers of ports.
fn port_entries<'a>(alloc: Global, ports: &[&'a Port]) -> Result<Vec<(u32, &'a [u8])>, NoMemory>
    requires { length ports.now ≤ 268435456 }
    ensures { IfOk result (λ made. written made.items
        ≡ named port_ident (numbered (seen ports.now))) }
{
    let mut made = Vec::with_capacity(alloc, ports.len())?;
    for (number, port) in ports.iter().enumerate() {
        made.push((number as u32, port_ident(port)))?;
    }
    Ok(made)
}

/// The ports of a cell, which contracts see as a list.
#[derive(Drop)]
pub struct PortTable<'a> {
    ports: Vec<&'a Port>,
    definitions: Definitions<'a>,
}

impl<'a> Model for PortTable<'a> {
    ghost use Rattle.std.specs.Coded.{codes};
    ghost use Rattle.std.specs.Prelude.{◌≡◌, List};
    ghost use Rattle.edif_values.specs.contracts.user.UserTree as user_tree;
    ghost use Rattle.edif_values.specs.declared.port.Port.{Port};
    ghost use Rattle.edif_lookup.specs.Tables.{named};
    ghost use Rattle.edif_design.specs.CellRules.{port_ident};
    ghost use Rattle.edif_design.specs.Parts.{numbered};
    ghost use Rattle.edif_rules.specs.Lists.{seen};

    ghost Value = { List Port };

    ghost coded = { Prim.hlevel (codes, user_tree.the_row.coded) };

    ghost view = { λ t. seen t.ports.items };

    ghost invariant = { λ t. t.definitions ≡ named port_ident (numbered (seen t.ports.items)) };
}

impl<'a> PortTable<'a> {
    /// The ports of a cell.
    pub fn of(alloc: Global, cell: &'a Cell) -> Result<PortTable<'a>, NoMemory>
        requires { cell_size cell.now ≤ 268435456 }
        ensures { IfOk result (λ table. table ≡ ports cell.now) }
    {
        let ports = ports_of(alloc, cell)?;
        let entries = port_entries(alloc, ports.as_slice())?;
        let definitions = Definitions::build(alloc, entries)?;
        Ok(PortTable { ports, definitions })
    }

    /// The ports, in order.
    pub fn ports(&self) -> &[&'a Port]
        ensures { seen result.now ≡ self.now }
    {
        self.ports.as_slice()
    }

    /// What a portRef of this spelling means.
    pub fn find(&self, alloc: Global, spelling: &[u8]) -> Result<Meaning, NoMemory>
        ensures { IfOk result (λ found. found ≡ ports_meaning self.now spelling.now) }
    {
        let found = self.definitions.find(alloc, spelling)?;
        Ok(found)
    }

    /// The port of this number.
    pub fn get(&self, number: u32) -> Option<&'a Port>
        ensures { MatchOption result (slice_get self.now number
            ≡ None) (λ port. slice_get self.now number ≡ Some port.now) }
    {
        match self.ports.get(number as usize) {
            None => None,
            Some(port) => Some(*port),
        }
    }
}

/// The numbers and the identifiers of instances.
fn instance_entries<'a>(
    alloc: Global,
    instances: &[&'a Instance],
) -> Result<Vec<(u32, &'a [u8])>, NoMemory>
    requires { length instances.now ≤ 268435456 }
    ensures { IfOk result (λ made. written made.items
        ≡ named instance_ident (numbered (seen instances.now))) }
{
    let mut made = Vec::with_capacity(alloc, instances.len())?;
    for (number, instance) in instances.iter().enumerate() {
        made.push((number as u32, instance.name.ident.bytes()))?;
    }
    Ok(made)
}

/// The instances of a cell, which contracts see as a list.
#[derive(Drop)]
pub struct InstanceTable<'a> {
    instances: Vec<&'a Instance>,
    definitions: Definitions<'a>,
}

impl<'a> Model for InstanceTable<'a> {
    ghost use Rattle.std.specs.Coded.{codes};
    ghost use Rattle.std.specs.Prelude.{◌≡◌, List};
    ghost use Rattle.edif_values.specs.contracts.user.UserTree as user_tree;
    ghost use Rattle.edif_values.specs.declared.instance.Instance.{Instance};
    ghost use Rattle.edif_lookup.specs.Tables.{named};
    ghost use Rattle.edif_design.specs.Parts.{numbered};
    ghost use Rattle.edif_rules.specs.Lists.{seen};
    ghost use Rattle.edif_rules.specs.Idents.{instance_ident};

    ghost Value = { List Instance };

    ghost coded = { Prim.hlevel (codes, user_tree.the_row.coded) };

    ghost view = { λ t. seen t.instances.items };

    ghost invariant = { λ t. t.definitions ≡ named instance_ident (numbered (seen t.instances.items)) };
}

impl<'a> InstanceTable<'a> {
    /// These instances.
    pub fn of(
        alloc: Global,
        mut instances: Vec<&'a Instance>,
    ) -> Result<InstanceTable<'a>, NoMemory>
        requires { length instances.items ≤ 268435456 }
        ensures { IfOk result (λ table. table ≡ seen instances.entry.items) }
    {
        instances.shrink_to_fit();
        let entries = instance_entries(alloc, instances.as_slice())?;
        let definitions = Definitions::build(alloc, entries)?;
        Ok(InstanceTable {
            instances,
            definitions,
        })
    }

    /// The instances, in order.
    pub fn instances(&self) -> &[&'a Instance]
        ensures { seen result.now ≡ self.now }
    {
        self.instances.as_slice()
    }

    /// What an instanceRef of this spelling means.
    pub fn find(&self, alloc: Global, spelling: &[u8]) -> Result<Meaning, NoMemory>
        ensures { IfOk result (λ found. found ≡ instances_meaning self.now spelling.now) }
    {
        let found = self.definitions.find(alloc, spelling)?;
        Ok(found)
    }

    /// The instance of this number.
    pub fn get(&self, number: u32) -> Option<&'a Instance>
        ensures { MatchOption result (slice_get self.now number
            ≡ None) (λ instance. slice_get self.now number ≡ Some instance.now) }
    {
        match self.instances.get(number as usize) {
            None => None,
            Some(instance) => Some(*instance),
        }
    }
}
