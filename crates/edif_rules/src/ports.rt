// What the ports of a cell break.
ghost use Rattle.std.specs.Prelude.{◌≡◌, IfOk};
ghost use Rattle.edif_lookup.specs.Refusals.{in_order, lowest};
ghost use Rattle.edif_design.specs.CellRules.{is_bad_size, port_refusals_by, port_ident, port_name, port_refusals, size_of};
ghost use Rattle.edif_rules.specs.Lists.{seen};

use crate::port_names::{port_ident, port_name, port_size};
use crate::references::{refused, unbroken};
use edif_lookup::{NameSet, lower, two_names};
use edif_values::Port;
use nl_base::{NoMemory, Refusal, Rule};
use std::alloc::Global;

/// Whether this is a size outside 1 to 65,536.
fn is_bad_size(size: Option<i64>) -> bool
    ensures { result ≡ is_bad_size size }
{
    match size {
        None => false,
        Some(n) => n < 1 || n > 65536,
    }
}

/// The refusal of a port, by whether an earlier port has its identifier, and whether one has its original name.
#[tactic(auto, unfolding(edif_lookup::specs::Refusals::lowest, edif_lookup::specs::Refusals::lower))]
fn port_refusal(
    alloc: Global,
    cell: &[u8],
    port: &Port,
    ident_taken: bool,
    name_taken: bool,
) -> Result<Option<Refusal>, NoMemory>
    ensures { IfOk result (λ found. found
        ≡ lowest (port_refusals_by cell.now ident_taken name_taken (port_ident port.now)
        (port_name port.now) (size_of port.now.name))) }
{
    if ident_taken {
        let told = two_names(alloc, b"port", port_ident(port))?;
        let found = refused(alloc, Rule::E5, cell, told)?;
        return Ok(found);
    }
    if is_bad_size(port_size(port)) {
        let told = two_names(alloc, b"size", port_name(port))?;
        let found = refused(alloc, Rule::E12, cell, told)?;
        return Ok(found);
    }
    if name_taken {
        let told = two_names(alloc, b"port", port_name(port))?;
        let found = refused(alloc, Rule::E12, cell, told)?;
        return Ok(found);
    }
    Ok(unbroken())
}

/// The first refusal of the ports of the cell of this name.
pub fn ports_refusal(
    alloc: Global,
    cell: &[u8],
    ports: &[&Port],
) -> Result<Option<Refusal>, NoMemory>
    ensures { IfOk result (λ found. found
        ≡ lowest (in_order (port_refusals cell.now) (seen ports.now))) }
{
    let mut best = unbroken();
    let mut idents = NameSet::new(alloc);
    let mut names = NameSet::new(alloc);
    for port in ports {
        let ident_taken = idents.note(port_ident(port))?;
        let name_taken = names.note(port_name(port))?;
        let next = port_refusal(alloc, cell, port, ident_taken, name_taken)?;
        best = lower(best, next);
    }
    Ok(best)
}
