// A bound on the units of a design, by the ports, nets and references of its cells: none of its cells is made.
ghost use Rattle.std.specs.Prelude.{◌≡◌, ◌≤◌, ◌-◌, ◌^◌, [], false, true, Some, cond, min, sum_by, slice_get, IfOk};
ghost use Rattle.std.specs.List.{list_any};
ghost use Rattle.net_hier.specs.Valid.{count_limit};
ghost use Rattle.edif_values.specs.Sizes.{edif_size};
ghost use Rattle.edif_cells.specs.Values.{is_bad_port};
ghost use Rattle.edif_design.specs.CellRules.{has_good_sizes};
ghost use Rattle.edif_design.specs.FileRules.{refusals};
ghost use Rattle.edif_design.specs.Reach.{is_reached};
ghost use Rattle.edif_design.specs.References.{all_cells};
ghost use Rattle.edif_design.specs.Tables.{place_of};
ghost use Rattle.edif_rules.specs.Lists.{seen};
ghost use Rattle.edif_resolve.specs.Most.{most_of_file, most_units, net_units, port_width};

use crate::tabled::TabledFile;
use edif_design::tables::PlacedCell;
use edif_rules::parts::{contents_of, nets_in, ports_of};
use edif_values::{Cell, Net, Port, port_original};
use nl_base::NoMemory;
use std::alloc::Global;

// How many bits a port has.
fn port_width(port: &Port) -> u64
    requires { is_bad_port port.now ≡ false }
    ensures { result ≡ port_width port.now }
{
    let (_, range) = port_original(&port.name);
    match range {
        None => 1,
        Some(range) => range.bits(),
    }
}

// How many bits ports have, or 2^64-1 where there are more.
fn bits_of(ports: &[&Port]) -> u64
    requires { list_any is_bad_port (seen ports.now) ≡ false }
    ensures { result ≡ min (2 ^ 64 - 1) (sum_by port_width (seen ports.now)) }
{
    let mut bits: u64 = 0;
    for port in ports {
        bits = bits.saturating_add(port_width(port));
    }
    bits
}

// How many nets and references in them there are, or 2^64-1 where there are more.
fn units_of_nets(nets: &[&Net]) -> u64
    ensures { result ≡ min (2 ^ 64 - 1) (sum_by net_units (seen nets.now)) }
{
    let mut units: u64 = 0;
    for net in nets {
        let references = net.joined.len() as u64;
        units = units.saturating_add(references).saturating_add(1);
    }
    units
}

// The most units that a cell may have, or 2^64-1 where there are more.
fn most_units(alloc: Global, cell: &Cell) -> Result<u64, NoMemory>
    requires { has_good_sizes cell.now ≡ true }
    ensures { IfOk result (λ most. most ≡ min (2 ^ 64 - 1) (most_units cell.now)) }
{
    let ports = ports_of(alloc, cell)?;
    let items = contents_of(alloc, cell)?;
    let nets = nets_in(alloc, items.as_slice())?;
    let bits = bits_of(ports.as_slice());
    Ok(bits.saturating_add(units_of_nets(nets.as_slice())))
}

// The most units that the cell at a place may have, where it is reached, or 2^64-1 where there are more.
fn most_at(
    alloc: Global,
    tabled: &TabledFile<'_>,
    number: u32,
    place: &PlacedCell<'_>,
) -> Result<u64, NoMemory>
    requires clean { refusals tabled.now ≡ [] }
    requires stands { slice_get (all_cells tabled.now) number ≡ Some (place_of place.now) }
    ensures { IfOk result (λ most. most
        ≡ cond (is_reached tabled.now number)
        (min (2 ^ 64 - 1) (most_units place.now.cell.now)) 0) }
{
    if !tabled.is_reached(number) {
        return Ok(0);
    }
    let most = most_units(alloc, place.cell)?;
    Ok(most)
}

/// The most units that the design of a file may have, which breaks none of the rules E1 to E12, or 2^64-1 where there are more.
pub(crate) fn most_of_file(alloc: Global, tabled: &TabledFile<'_>) -> Result<u64, NoMemory>
    requires clean { refusals tabled.now ≡ [] }
    requires small { edif_size tabled.now ≤ count_limit }
    ensures { IfOk result (λ most. most ≡ min (2 ^ 64 - 1) (most_of_file tabled.now)) }
{
    let mut most: u64 = 0;
    let places = tabled.tables().places();
    for number in 0..places.len() as u32 {
        let more = most_at(alloc, tabled, number, &places[number as usize])?;
        most = most.saturating_add(more);
    }
    Ok(most)
}
