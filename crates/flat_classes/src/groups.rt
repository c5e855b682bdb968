// The groups of connected terminals.
ghost use Rattle.std.specs.Prelude.{ℕ, ◌≡◌, ◌+◌, ◌-◌, ◌<◌, ◌≤◌, ◌^◌, ◌++◌, All, None, Option, Some, map, length, slice_get, slice_index_or, slice_set, IfOk, OnOk};
ghost use Rattle.net_hier.specs.declared.cells.HCell.{HCell as CellValue};
ghost use Rattle.flat_classes.specs.Groups.{AreInOrder, AreSame, known_numbers};
ghost use Rattle.flat_numbers.specs.TableParts.{HasTables, bases_in, spots_in};
ghost use Rattle.flat_numbers.specs.Numbers.{CellOf};
ghost use Rattle.flat_classes.specs.TerminalNumbers.{HaveLabels, port_labels};
ghost use Rattle.flat_classes.specs.Terminals.{terminals_of};

use flat_numbers::counts::bits_of_ports;
use flat_numbers::numbers::Tables;
use net_hier::Hier;
use nl_base::NoMemory;
use std::alloc::Global;

/// Adds the labels of the port bits of the cell at a spot, whose numbers lie one behind the other.
fn push_labels(
    found: &mut Vec<u32>,
    hier: &Hier,
    tables: &Tables,
    labels: &[u32],
    spot: u32,
) -> Result<(), NoMemory>
    requires are_tables { HasTables hier.now tables.now }
    requires spot { (cell : CellValue) × CellOf hier.now.cells (spots_in tables.now) spot cell }
    requires labels { tables.now.layout.count ≡ length labels.now }
    ensures { OnOk result (found.new.items ≡ found.old.items ++ port_labels hier.now.cells
        (spots_in tables.now) (bases_in tables.now) labels.now spot) }
{
    let cells = hier.cells();
    let cell = tables.layout.spots[spot as usize].cell;
    let from = tables.layout.bases[spot as usize] as usize;
    let bits = bits_of_ports(&cells[cell as usize]) as usize;
    found.extend_from_slice(&labels[from..from + bits])?;
    Ok(())
}

/// The label of each terminal's number, where the terminals are the port bits of the top, those of
/// the leaves other than the top, and the constants.
pub fn labels_of(
    alloc: Global,
    hier: &Hier,
    tables: &Tables,
    labels: &[u32],
    leaves: &[u32],
) -> Result<Vec<u32>, NoMemory>
    requires are_tables { HasTables hier.now tables.now }
    requires leaves { All (λ leaf. (cell : CellValue) ×
        CellOf hier.now.cells (spots_in tables.now) leaf cell) leaves.now }
    requires labels { tables.now.layout.count ≡ length labels.now }
    ensures { IfOk result (λ found. HaveLabels hier.now.cells (spots_in tables.now) (bases_in
        tables.now) labels.now (terminals_of hier.now.cells (spots_in tables.now) leaves.now)
        found.items) }
{
    let _cells = hier.cells();
    let mut found = Vec::new(alloc);
    push_labels(&mut found, hier, tables, labels, 0)?;
    for leaf in leaves {
        if *leaf != 0 {
            push_labels(&mut found, hier, tables, labels, *leaf)?;
        }
    }
    found.push(labels[0])?;
    found.push(labels[1])?;
    found.shrink_to_fit();
    Ok(found)
}

/// Stands for no number in a list of the numbers of values. No value has so great a number, and
/// four bytes each are half of what an `Option` takes.
const UNKNOWN: u32 = u32::MAX;

/// The number of a value, which is the next one where the value has none yet.
fn number_of(known: &mut [u32], value: u32, next: u32) -> u32
    requires value { value < length known.old }
    requires next { next < 2 ^ 32 - 1 }
    ensures known { (number : ℕ) → slice_index_or (known_numbers known.old) value None ≡ Some number
        → (result ≡ number) × (known_numbers known.new ≡ known_numbers known.old) }
    ensures unknown { slice_index_or (known_numbers known.old) value None ≡ None → (result ≡ next) ×
        (known_numbers known.new ≡ slice_set (known_numbers known.old) value (Some next)) }
    ensures len { length known.new ≡ length known.old }
{
    let number = known[value as usize];
    if number != UNKNOWN {
        return number;
    }
    known[value as usize] = next;
    next
}

/// Numbers of values below the bound: equal values have one number, and others differ. They are
/// given from 0 in the order of first values. How many there are is answered too.
pub fn numbers_in_order(
    alloc: Global,
    bound: usize,
    values: &[u32],
) -> Result<(Vec<u32>, u32), NoMemory>
    requires few { length values.now < 2 ^ 32 }
    requires below { All (λ value. value < bound) values.now }
    ensures same { IfOk result (λ r. AreSame values.now r.0.items) }
    ensures in_order { IfOk result (λ r. AreInOrder r.0.items r.1) }
{
    let mut known = vec![in alloc; UNKNOWN; bound]?;
    let mut numbers = Vec::with_capacity(alloc, values.len())?;
    let mut count: u32 = 0;
    for value in values {
        let number = number_of(&mut known, *value, count);
        numbers.push(number)?;
        if number == count {
            count += 1;
        }
    }
    Ok((numbers, count))
}
