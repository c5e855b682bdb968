// The numbers of the cells of a design in a file.
ghost use Rattle.std.specs.Prelude.{◌≡◌, ◌≤◌, IfOk};
ghost use Rattle.edif_planning.specs.Numbers.{AreNumbers};

use net_hier::Hier;
use nl_base::NoMemory;
use std::alloc::Global;

/// For each cell of a design its number in a file that begins with so many new cells, where it stands at its place in the order.
pub(crate) fn numbers_of(alloc: Global, hier: &Hier, count: u32) -> Result<Vec<u32>, NoMemory>
    requires { count ≤ 2 }
    ensures { IfOk result (λ numbers. AreNumbers hier.now count numbers.items) }
{
    let mut numbers = vec![in alloc; 0; hier.cells().len()]?;
    let order = hier.order();
    for (place, number) in order.iter().enumerate() {
        numbers[*number as usize] = count + place as u32;
    }
    Ok(numbers)
}
