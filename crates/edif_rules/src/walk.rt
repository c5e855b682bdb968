// What the parts of a cell break.
ghost use Rattle.std.specs.Prelude.{◌≡◌, ◌≤◌, ◌<◌, ◌+◌, ◌∷◌, ◌++◌, true, List, [], length, map, option_to_list, IfOk, OnOk};
ghost use Rattle.std.specs.List.{filter_map, flat_map, list_any};
ghost use Rattle.edif_lookup.specs.Refusals.{in_order, is_in, lowest};
ghost use Rattle.edif_values.specs.Sizes.{cell_size};
ghost use Rattle.edif_values.specs.declared.view.ContentsItem.{ContentsItem};
ghost use Rattle.edif_design.specs.CellRules.{cell_refusals, contents_refusals};
ghost use Rattle.edif_design.specs.Parts.{cell_contents, contents, contents_in, ports, view_in};
ghost use Rattle.edif_design.specs.References.{file_cells, linked_cell, numbers_meant, place_in};
ghost use Rattle.edif_rules.specs.RefRefusals.{ref_node};
ghost use Rattle.edif_rules.specs.Scopes.{IsScope, lists_of};
ghost use Rattle.edif_rules.specs.Walks.{AddsBits, AddsName, HasMet, Walks, has_ident_before, instance_refusals_by, instance_original, is_name_taken, is_renamed, means_other, net_refusals_by, net_ident};

use crate::bits::TakenBits;
use crate::found::CellScope;
use crate::instances::{instance_refusal, second_refusal};
use crate::joined::meet_joined;
use crate::parts::instances_of;
use crate::ports::ports_refusal;
use crate::references::{NetNames, unbroken};
use crate::room::net_count;
use crate::tables::{InstanceTable, PortTable};
use edif_design::FileTables;
use edif_lookup::{Meaning, NameSet, lower};
use edif_values::{Cell, CellItem, ContentsItem, Instance, Net, View, ViewItem, original};
use nl_base::{NoMemory, Refusal, Rule};
use std::alloc::Global;

/// What a walk of a cell's contents has met: the number of instances, the identifiers of nets, the bits that nets have, and the original
/// names of instances where some instance of the cell is renamed. Where none is, original names are identifiers, and these are looked up.
#[derive(Drop)]
struct Met<'a> {
    instances: u32,
    renamed: bool,
    originals: NameSet<'a>,
    nets: NameSet<'a>,
    taken: TakenBits,
}

/// Whether some instance is renamed.
fn any_renamed(instances: &[&Instance]) -> bool
    ensures { result ≡ list_any (λ reference. is_renamed reference.now) instances.now }
{
    instances.iter().any(|instance| is_renamed(instance))
}

/// Whether the instance has a name other than its identifier.
fn is_renamed(instance: &Instance) -> bool
    ensures { result ≡ is_renamed instance.now }
{
    instance.name.text.is_some()
}

/// Whether this is a definition with a number other than this one.
fn means_other(meaning: Meaning, number: u32) -> bool
    ensures { result ≡ means_other number meaning }
{
    match meaning {
        Meaning::One(first) => first != number,
        _ => false,
    }
}

/// Whether an earlier instance has the identifier of the instance of this number. An identifier means the first instance that has it.
fn has_ident_before(
    alloc: Global,
    instances: &InstanceTable<'_>,
    number: u32,
    instance: &Instance,
) -> Result<bool, NoMemory>
    ensures { IfOk result
        (λ taken. taken ≡ has_ident_before instances.now number instance.now) }
{
    let meaning = instances.find(alloc, instance.name.ident.bytes())?;
    Ok(means_other(meaning, number))
}

/// Whether an earlier instance has the original name of the instance; notes the name where some instance of the cell is renamed.
fn note_original<'a>(
    renamed: bool,
    originals: &mut NameSet<'a>,
    instance: &'a Instance,
    ident_taken: bool,
) -> Result<bool, NoMemory>
    ensures taken { IfOk result
        (λ taken. taken ≡ is_name_taken ident_taken renamed originals.old instance.now) }
    ensures noted { OnOk result (renamed ≡ true
        → AddsName originals.old (instance_original instance.now) originals.new) }
{
    if renamed {
        let taken = originals.note(original(&instance.name))?;
        return Ok(taken);
    }
    Ok(ident_taken)
}

/// What an instance breaks.
fn meet_instance<'a>(
    alloc: Global,
    tables: &FileTables<'_>,
    scope: &CellScope<'_, '_>,
    home: u32,
    cell: &[u8],
    met: &mut Met<'a>,
    instance: &'a Instance,
) -> Result<Option<Refusal>, NoMemory>
    requires { met.old.instances < 4294967295 }
    ensures refusal { IfOk result
        (λ found. found ≡ lowest (instance_refusals_by tables.now home cell.now
        (has_ident_before (lists_of scope.now).instances met.old.instances instance.now)
        (is_name_taken
        (has_ident_before (lists_of scope.now).instances met.old.instances instance.now)
        met.old.renamed met.old.originals instance.now) instance.now)) }
    ensures number { OnOk result (met.new.instances ≡ met.old.instances + 1) }
    ensures renamed { OnOk result (met.new.renamed ≡ met.old.renamed) }
    ensures original { OnOk result (met.old.renamed ≡ true
        → AddsName met.old.originals (instance_original instance.now) met.new.originals) }
    ensures nets { OnOk result (met.new.nets ≡ met.old.nets) }
    ensures taken { OnOk result (met.new.taken ≡ met.old.taken) }
{
    let ident_taken = has_ident_before(alloc, scope.instances, met.instances, instance)?;
    let name_taken = note_original(met.renamed, &mut met.originals, instance, ident_taken)?;
    met.instances += 1;
    let found = instance_refusal(alloc, tables, home, cell, instance, ident_taken, name_taken)?;
    Ok(found)
}

/// What a net breaks.
fn meet_net<'a>(
    alloc: Global,
    scope: &CellScope<'_, '_>,
    cell: &[u8],
    met: &mut Met<'a>,
    net: &'a Net,
) -> Result<Option<Refusal>, NoMemory>
    ensures refusal { IfOk result
        (λ found. found ≡ lowest
        (net_refusals_by (lists_of scope.now) cell.now
        (is_in (net_ident net.now) met.old.nets) met.old.taken net.now)) }
    ensures ident { OnOk result (AddsName met.old.nets (net_ident net.now) met.new.nets) }
    ensures bits { OnOk result
        (AddsBits met.old.taken
        (filter_map (ref_node (lists_of scope.now)) net.now.joined) met.new.taken) }
    ensures instances { OnOk result (met.new.instances ≡ met.old.instances) }
    ensures renamed { OnOk result (met.new.renamed ≡ met.old.renamed) }
    ensures originals { OnOk result (met.new.originals ≡ met.old.originals) }
{
    let ident = net.name.ident.bytes();
    let ident_taken = met.nets.note(ident)?;
    let second = second_refusal(alloc, ident_taken, Rule::E5, cell, b"net", ident)?;
    let names = NetNames {
        cell,
        net: original(&net.name),
    };
    let joined = net.joined.items();
    let first = meet_joined(alloc, scope, &names, &mut met.taken, joined)?;
    Ok(lower(second, first))
}

/// What a part of the contents breaks.
fn meet_item<'a>(
    alloc: Global,
    tables: &FileTables<'_>,
    scope: &CellScope<'_, '_>,
    home: u32,
    cell: &Cell,
    met: &mut Met<'a>,
    item: &'a ContentsItem,
) -> Result<Option<Refusal>, NoMemory>
    requires scope { IsScope (linked_cell tables.now (place_in home cell.now))
        (lists_of scope.now) }
    requires few { met.old.instances < 4294967295 }
    ensures refusal { IfOk result
        (λ found. (before after : List ContentsItem)
        → before ++ item.now ∷ after ≡ cell_contents cell.now
        → HasMet (linked_cell tables.now (place_in home cell.now)) before met.old
        → found ≡ lowest (contents_refusals tables.now (place_in home cell.now) before item.now)) }
    ensures met { OnOk result ((before : List ContentsItem)
        → HasMet (linked_cell tables.now (place_in home cell.now)) before met.old
        → HasMet (linked_cell tables.now (place_in home cell.now)) (before ++ item.now
        ∷ []) met.new) }
    ensures number { OnOk result (met.new.instances ≤ met.old.instances + 1) }
{
    match item {
        ContentsItem::Instance(instance) => {
            let name = original(&cell.name);
            let found = meet_instance(alloc, tables, scope, home, name, met, instance)?;
            Ok(found)
        }
        ContentsItem::Net(net) => {
            let found = meet_net(alloc, scope, original(&cell.name), met, net)?;
            Ok(found)
        }
        ContentsItem::Note(_) => Ok(unbroken()),
    }
}

/// What some parts of the contents break.
fn meet_items<'a>(
    alloc: Global,
    tables: &FileTables<'_>,
    scope: &CellScope<'_, '_>,
    home: u32,
    cell: &Cell,
    met: &mut Met<'a>,
    items: &'a [ContentsItem],
) -> Result<Option<Refusal>, NoMemory>
    requires scope { IsScope (linked_cell tables.now (place_in home cell.now))
        (lists_of scope.now) }
    requires few { met.old.instances + length items.now ≤ 268435456 }
    ensures { IfOk result (λ found.
        Walks tables.now (place_in home cell.now) items.now met.old found met.new) }
{
    let mut best = unbroken();
    for item in items {
        let next = meet_item(alloc, tables, scope, home, cell, met, item)?;
        best = lower(best, next);
    }
    Ok(best)
}

/// What the contents that the part of a view is break, where it is some.
fn meet_contents<'a>(
    alloc: Global,
    tables: &FileTables<'_>,
    scope: &CellScope<'_, '_>,
    home: u32,
    cell: &Cell,
    met: &mut Met<'a>,
    item: &'a ViewItem,
) -> Result<Option<Refusal>, NoMemory>
    requires scope { IsScope (linked_cell tables.now (place_in home cell.now))
        (lists_of scope.now) }
    requires few { met.old.instances + length (contents_in item.now) ≤ 268435456 }
    ensures { IfOk result (λ found.
        Walks tables.now (place_in home cell.now) (contents_in item.now) met.old found met.new) }
{
    match item {
        ViewItem::Contents(items) => {
            let found = meet_items(alloc, tables, scope, home, cell, met, items.items())?;
            Ok(found)
        }
        _ => Ok(unbroken()),
    }
}

/// What the contents of a view break.
fn meet_view<'a>(
    alloc: Global,
    tables: &FileTables<'_>,
    scope: &CellScope<'_, '_>,
    home: u32,
    cell: &Cell,
    met: &mut Met<'a>,
    view: &'a View,
) -> Result<Option<Refusal>, NoMemory>
    requires scope { IsScope (linked_cell tables.now (place_in home cell.now))
        (lists_of scope.now) }
    requires few { met.old.instances + length (contents view.now) ≤ 268435456 }
    ensures { IfOk result (λ found.
        Walks tables.now (place_in home cell.now) (contents view.now) met.old found met.new) }
{
    let mut best = unbroken();
    for item in view.items.items() {
        let next = meet_contents(alloc, tables, scope, home, cell, met, item)?;
        best = lower(best, next);
    }
    Ok(best)
}

/// What the contents of the view that the part of a cell is break, where it is one.
fn meet_cell_item<'a>(
    alloc: Global,
    tables: &FileTables<'_>,
    scope: &CellScope<'_, '_>,
    home: u32,
    cell: &Cell,
    met: &mut Met<'a>,
    item: &'a CellItem,
) -> Result<Option<Refusal>, NoMemory>
    requires scope { IsScope (linked_cell tables.now (place_in home cell.now))
        (lists_of scope.now) }
    requires few { met.old.instances
        + length (flat_map contents (option_to_list (view_in item.now))) ≤ 268435456 }
    ensures { IfOk result (λ found. Walks tables.now (place_in home cell.now)
        (flat_map contents (option_to_list (view_in item.now))) met.old found met.new) }
{
    match item {
        CellItem::View(view) => {
            let found = meet_view(alloc, tables, scope, home, cell, met, view)?;
            Ok(found)
        }
        _ => Ok(unbroken()),
    }
}

/// What the contents of a cell break, which are walked where they stand: a list of them would be as long as the cell.
fn meet_cell<'a>(
    alloc: Global,
    tables: &FileTables<'_>,
    scope: &CellScope<'_, '_>,
    home: u32,
    cell: &'a Cell,
    met: &mut Met<'a>,
) -> Result<Option<Refusal>, NoMemory>
    requires scope { IsScope (linked_cell tables.now (place_in home cell.now))
        (lists_of scope.now) }
    requires few { met.old.instances + length (cell_contents cell.now) ≤ 268435456 }
    ensures { IfOk result (λ found.
        Walks tables.now (place_in home cell.now) (cell_contents cell.now) met.old found met.new) }
{
    let mut best = unbroken();
    for item in cell.items.items() {
        let next = meet_cell_item(alloc, tables, scope, home, cell, met, item)?;
        best = lower(best, next);
    }
    Ok(best)
}

/// The first refusal of the contents of a cell.
fn contents_refusal(
    alloc: Global,
    tables: &FileTables<'_>,
    scope: &CellScope<'_, '_>,
    home: u32,
    cell: &Cell,
) -> Result<Option<Refusal>, NoMemory>
    requires scope { IsScope (linked_cell tables.now (place_in home cell.now))
        (lists_of scope.now) }
    requires few { cell_size cell.now ≤ 268435456 }
    ensures { IfOk result (λ found. found
        ≡ lowest (in_order (contents_refusals tables.now (place_in home cell.now))
        (cell_contents cell.now))) }
{
    let instances = scope.instances.instances();
    let mut met = Met {
        instances: 0,
        renamed: any_renamed(instances),
        originals: NameSet::new(alloc),
        nets: NameSet::with_room(alloc, net_count(cell))?,
        taken: TakenBits::empty(alloc, instances.len())?,
    };
    let found = meet_cell(alloc, tables, scope, home, cell, &mut met)?;
    Ok(found)
}

/// The first refusal of the parts of a cell in the library of this number, by the ports of each cell of the file, and the numbers of the
/// cells that the cell's instances are of.
pub fn cell_refusal(
    alloc: Global,
    tables: &FileTables<'_>,
    port_tables: &[PortTable<'_>],
    home: u32,
    cell: &Cell,
    below: &[Option<u32>],
) -> Result<Option<Refusal>, NoMemory>
    requires port_tables { port_tables.now ≡ map ports (file_cells tables.now) }
    requires below { below.now ≡ numbers_meant tables.now (place_in home cell.now) }
    requires few { cell_size cell.now ≤ 268435456 }
    ensures { IfOk result (λ found. found
        ≡ lowest (cell_refusals tables.now (place_in home cell.now))) }
{
    let own = PortTable::of(alloc, cell)?;
    let instances = InstanceTable::of(alloc, instances_of(alloc, cell)?)?;
    let scope = CellScope {
        own: &own,
        instances: &instances,
        below,
        port_tables,
    };
    let first = ports_refusal(alloc, original(&cell.name), own.ports())?;
    let next = contents_refusal(alloc, tables, &scope, home, cell)?;
    Ok(lower(first, next))
}
