// Ports that are declared again as nets.
ghost use Rattle.std.specs.Prelude.{◌≡◌, filter, find, flat_map, map, option_copied, IfOk};
ghost use Rattle.nl_base.specs.declared.rule.Rule.TheVariants.{G15};
ghost use Rattle.vlog_design.specs.Names.{net_decl, signals};
ghost use Rattle.vlog_design.specs.Rules.{first_of, other_ranges, refused, same_range};
ghost use Rattle.vlog_rules.specs.Redeclared.{other_in, other_slot};

use crate::refusals::refuse;
use nl_base::{NoMemory, Range, Refusal, Rule};
use std::alloc::Global;
use vlog_design::signals::{SignalAt, Slot};
use vlog_design::table::Table;
use vlog_values::{ItemV, Module, NetDecl};

fn same_range(one: Option<Range>, other: Option<Range>) -> bool
    ensures { result ≡ same_range one other }
{
    match one {
        None => match other {
            None => true,
            Some(_) => false,
        },
        Some(one) => match other {
            None => false,
            Some(other) => one.left == other.left && one.right == other.right,
        },
    }
}

fn is_other_slot(range: Option<Range>, slot: Slot) -> bool
    ensures { result ≡ other_slot range slot }
{
    match slot.place {
        SignalAt::AtPort(_) => !same_range(range, slot.range),
        SignalAt::AtNet(_) => false,
    }
}

/// Whether the name is that of a port of another range.
#[tactic(auto, unfolding(crate::specs::Redeclared::other_in))]
fn is_other(table: &Table, near: &mut usize, range: Option<Range>, name: &[u8]) -> bool
    ensures { result ≡ other_in table.now range name.now }
{
    match table.find_near(near, name) {
        None => false,
        Some(slot) => is_other_slot(range, slot),
    }
}

fn first_other<'a>(table: &Table, near: &mut usize, decl: &'a NetDecl) -> Option<&'a [u8]>
    ensures { option_copied result ≡ find (other_in table.now decl.now.range) decl.now.names }
{
    for name in decl.names.items() {
        if is_other(table, near, decl.range, name.bytes()) {
            return Some(name.bytes());
        }
    }
    None
}

#[tactic(auto, using(crate::proofs::RuleLaws::first_filter))]
fn first_in_item<'a>(table: &Table, near: &mut usize, item: &'a ItemV) -> Option<&'a [u8]>
    ensures { option_copied result
        ≡ first_of (flat_map (λ decl. filter (other_in table.now decl.range) decl.names)
        (net_decl item.now)) }
{
    match item {
        ItemV::Net(decl) => first_other(table, near, decl),
        ItemV::Port(_) => None,
        ItemV::Param(_) => None,
        ItemV::Assign(_) => None,
        ItemV::Instances(_) => None,
        ItemV::Defparam(_) => None,
    }
}

fn first_in_items<'a>(table: &Table, items: &'a [ItemV]) -> Option<&'a [u8]>
    ensures { option_copied result
        ≡ first_of (flat_map (λ decl. filter (other_in table.now decl.range) decl.names)
        (flat_map net_decl items.now)) }
{
    let mut near: usize = 0;
    for item in items {
        if let Some(name) = first_in_item(table, &mut near, item) {
            return Some(name);
        }
    }
    None
}

/// The first port of the module whose net declaration has another range, or has one where the port has none.
pub fn other_range(alloc: Global, m: &Module, table: &Table) -> Result<Option<Refusal>, NoMemory>
    requires { table.now ≡ signals m.now }
    ensures { IfOk result (λ found. found
        ≡ first_of (map (refused G15 m.now.name) (other_ranges m.now))) }
{
    match first_in_items(table, m.items.items()) {
        None => Ok(None),
        Some(name) => Ok(Some(refuse(alloc, Rule::G15, m.name.bytes(), name)?)),
    }
}
