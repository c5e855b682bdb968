// The walk that lists the spots.
ghost use Rattle.std.specs.Prelude.{ℕ, ◌≡◌, ◌+◌, ◌^◌, ◌<◌, ◌≤◌, List, ◌++◌, length, reverse, IfOk, OnOk};
ghost use Rattle.net_hier.specs.FlatCount.{FlatCount};
ghost use Rattle.flat_numbers.specs.Numbers.{numbers_of};
ghost use Rattle.flat_numbers.specs.Spots.{spots_below};
ghost use Rattle.flat_numbers.specs.Layout.{IsLayout};

use crate::counts::bits_of_ports;
use crate::spots::Spot;
use net_hier::{HCell, HInst};
use nl_base::NoMemory;
use std::alloc::Global;

/// How many numbers a spot has.
fn numbers(cell: &HCell) -> u32
    requires { numbers_of cell.now ≤ 2000001 }
    ensures { result ≡ numbers_of cell.now }
{
    (bits_of_ports(cell) + cell.nets.len() as u64) as u32
}

/// Puts the spots of the instances on the stack, the last instance first.
fn push_below(stack: &mut Vec<Spot>, parent: u32, instances: &[HInst]) -> Result<(), NoMemory>
    requires { length instances.now < 2 ^ 32 }
    ensures { OnOk result (stack.new.items ≡ stack.old.items ++ reverse (spots_below parent 0
        instances.now)) }
{
    let mut place = instances.len();
    while place > 0 {
        place -= 1;
        stack.push(Spot {
            parent,
            instance: place as u32,
            cell: instances[place].cell,
        })?;
    }
    Ok(())
}

/// The spots, and the first number of each.
#[derive(Drop)]
pub struct Layout {
    pub spots: Vec<Spot>,
    pub bases: Vec<u32>,
    pub count: u32,
}

/// The spots of the paths from the top, in depth-first order.
pub fn layout_of(alloc: Global, cells: &[HCell], top: u32, count: u64) -> Result<Layout, NoMemory>
    requires few { count ≤ 2000000 }
    requires counted { FlatCount cells.now top count }
    ensures { IfOk result (IsLayout cells.now top count) }
{
    let _few = count;
    let mut spots = Vec::new(alloc);
    let mut bases = Vec::new(alloc);
    let mut base: u32 = 2;
    let mut stack = Vec::new(alloc);
    stack.push(Spot {
        parent: 0,
        instance: 0,
        cell: top,
    })?;
    while let Some(spot) = stack.pop() {
        let cell = &cells[spot.cell as usize];
        let number = spots.len() as u32;
        spots.push(spot)?;
        bases.push(base)?;
        base += numbers(cell);
        push_below(&mut stack, number, cell.instances.items())?;
    }
    spots.shrink_to_fit();
    bases.shrink_to_fit();
    Ok(Layout {
        spots,
        bases,
        count: base,
    })
}

impl Layout {
    /// The spots alone.
    pub fn into_spots(self) -> Vec<Spot>
        ensures { result ≡ self.spots }
    {
        let Layout {
            spots,
            bases: _,
            count: _,
        } = self;
        spots
    }
}
