// The cells at leaves.
ghost use Rattle.std.specs.Prelude.{ℕ, ◌≡◌, ◌<◌, All, false, length, slice_index_or, IfOk};
ghost use Rattle.flat_numbers.specs.Spots.{AreSpots};
ghost use Rattle.net_flatten_rules.specs.FlatDesign.{leaf_cells, stands_at};

use flat_classes::Spot;
use net_hier::Hier;
use nl_base::NoMemory;
use std::alloc::Global;

/// For each of this many cells whether it stands at one of the leaves.
fn marks_of(
    alloc: Global,
    count: usize,
    spots: &[Spot],
    leaves: &[u32],
) -> Result<Vec<bool>, NoMemory>
    requires leaves { All (λ leaf. leaf < length spots.now) leaves.now }
    requires cells { All (λ spot. spot.cell < count) spots.now }
    ensures long { IfOk result (λ marks. length marks.items ≡ count) }
    ensures marks { IfOk result (λ marks. (number : ℕ) → number < count →
        slice_index_or marks.items number false ≡ stands_at spots.now leaves.now number) }
{
    let mut marks = vec![in alloc; false; count]?;
    for leaf in leaves {
        let cell = spots[*leaf as usize].cell;
        marks[cell as usize] = true;
    }
    Ok(marks)
}

/// The numbers of the cells at the leaves, in the order of the design.
pub fn leaf_cells(
    alloc: Global,
    hier: &Hier,
    spots: &[Spot],
    leaves: &[u32],
) -> Result<Vec<u32>, NoMemory>
    requires spots { AreSpots hier.now spots.now }
    requires leaves { All (λ leaf. leaf < length spots.now) leaves.now }
    ensures { IfOk result (λ numbers.
        numbers.items ≡ leaf_cells hier.now.order spots.now leaves.now) }
{
    let cells = hier.cells();
    let order = hier.order();
    let marks = marks_of(alloc, cells.len(), spots, leaves)?;
    let mut numbers = Vec::new(alloc);
    for number in order {
        if marks[*number as usize] {
            numbers.push(*number)?;
        }
    }
    Ok(numbers)
}
