// The leaves below the top.
ghost use Rattle.std.specs.Prelude.{◌≡◌, IfOk};
ghost use Rattle.net_flatten_rules.specs.FlatDesign.{inner};

use nl_base::NoMemory;
use std::alloc::Global;

/// The leaves below the top.
pub fn inner_leaves(alloc: Global, leaves: &[u32]) -> Result<Vec<u32>, NoMemory>
    ensures { IfOk result (λ found. found.items ≡ inner leaves.now) }
{
    let mut found = Vec::new(alloc);
    for leaf in leaves {
        if *leaf != 0 {
            found.push(*leaf)?;
        }
    }
    Ok(found)
}
