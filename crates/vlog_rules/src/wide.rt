// Ports and nets of too many bits.
ghost use Rattle.std.specs.Prelude.{◌≡◌, find, map, nat_lt, option_copied, option_map, slice_get, IfOk};
ghost use Rattle.net_hier.specs.Cells.{width_of};
ghost use Rattle.nl_base.specs.declared.rule.Rule.TheVariants.{G12};
ghost use Rattle.vlog_design.specs.Names.{signals};
ghost use Rattle.vlog_design.specs.Rules.{first_of, refused, too_wide};
ghost use Rattle.vlog_rules.specs.Wide.{wide_name};

use crate::refusals::refuse;
use nl_base::{NoMemory, Refusal, Rule};
use std::alloc::Global;
use vlog_design::table::Table;
use vlog_design::widths::range_width;
use vlog_values::Module;

/// The greatest number of bits of a port or net.
const WIDTH_LIMIT: u64 = 65_536;

/// The name of this number, where it is that of a port or net of too many bits.
fn wide_name<'a>(table: &Table<'a>, number: usize) -> Option<&'a [u8]>
    ensures { option_copied result ≡ wide_name (slice_get table.now number) }
{
    let Some((name, slot)) = table.entry(number) else {
        return None;
    };
    if range_width(slot.range) > WIDTH_LIMIT {
        return Some(name);
    }
    None
}

fn first_wide<'a>(table: &Table<'a>) -> Option<&'a [u8]>
    ensures { option_copied result
        ≡ option_map (λ signal. signal.name)
        (find (λ signal. nat_lt 65536 (width_of signal.slot.range)) table.now) }
{
    for number in 0..table.len() {
        if let Some(name) = wide_name(table, number) {
            return Some(name);
        }
    }
    None
}

/// The first port or net of the module that has too many bits.
pub fn too_wide(alloc: Global, m: &Module, table: &Table) -> Result<Option<Refusal>, NoMemory>
    requires { table.now ≡ signals m.now }
    ensures { IfOk result (λ found. found
        ≡ first_of (map (refused G12 m.now.name) (too_wide m.now))) }
{
    match first_wide(table) {
        None => Ok(None),
        Some(name) => Ok(Some(refuse(alloc, Rule::G12, m.name.bytes(), name)?)),
    }
}
