// The numbers of the reached cells in the design.
ghost use Rattle.std.specs.Prelude.{◌≡◌, ◌<◌, ◌+◌, ◌^◌, cond, length, IfOk};
ghost use Rattle.edif_design.specs.Design.{counts_from};

use nl_base::NoMemory;
use std::alloc::Global;

// The count after a mark.
fn next_count(count: u32, mark: bool) -> u32
    requires { count + 1 < 2 ^ 32 }
    ensures { result ≡ count + cond mark 1 0 }
{
    if mark {
        return count + 1;
    }
    count
}

/// For each mark how many marks that are set stand before it.
pub(crate) fn counts_of(alloc: Global, marks: &[bool]) -> Result<Vec<u32>, NoMemory>
    requires { length marks.now < 2 ^ 32 }
    ensures { IfOk result (λ counts. counts.items ≡ counts_from 0 marks.now) }
{
    let mut counts = Vec::new(alloc);
    let mut count: u32 = 0;
    for mark in marks {
        counts.push(count)?;
        count = next_count(count, *mark);
    }
    Ok(counts)
}
