// The references of a net.
ghost use Rattle.std.specs.Prelude.{◌≡◌, ◌++◌, ◌<◌, ◌≤◌, [], length, get_or, map, option_to_list, IfOk, IfSome, OnOk};
ghost use Rattle.std.specs.List.{AllByRecursion};
ghost use Rattle.edif_values.specs.Values.{IsWord, IsPortRef};
ghost use Rattle.net_hier.specs.Cells.{IsPinBit, IsPortBit};
ghost use Rattle.edif_plans.specs.References.{CanRefer, FitsCellPlan, HasPin, added_place as place_of_added, below_at, constant_ref_for, member_for, own_ref_for, pin_ref_for, ports_at, range_at, ref_for, refs_for};
ghost use Rattle.edif_making.specs.CellPlans.{cell_plan_of, nameless};

use edif_naming::copied;
use edif_plans::{Head, Instances, Plan};
use edif_values::PortRef;
use net_hier::{HCell, HPort, Node};
use net_live::end_count;
use nl_base::{Ident, Int, NoMemory, OptionalIdent, OptionalInt, Range, Seq};
use std::alloc::Global;

/// A cell that is written, with what its references name: its name and ports are those of `shown` and its nets those of `inside`, and `belows`
/// are the numbers of the cells of its instances.
#[derive(Clone, Copy)]
pub struct Scope<'a> {
    pub cells: &'a [HCell],
    pub plan: &'a Plan,
    pub shown: &'a HCell,
    pub inside: &'a HCell,
    pub belows: &'a [u32],
    pub head: &'a Head,
    pub instances: &'a Instances,
}

/// The member that a reference to a bit of a port of this range has: none for a scalar.
fn member_of(range: Option<Range>, bit: u32) -> Option<Int>
    ensures { result ≡ member_for range bit }
{
    match range {
        None => None,
        Some(_) => Some(Int::signed(false, bit as u64)),
    }
}

/// The range of the port of this number, where it has one.
fn range_of(ports: &[HPort], port: usize) -> Option<Range>
    ensures { result ≡ range_at ports.now port }
{
    match ports.get(port) {
        None => None,
        Some(found) => found.range,
    }
}

/// The ports of the cell of this number.
fn ports_of(cells: &[HCell], number: usize) -> &[HPort]
    ensures { result.now ≡ ports_at cells.now number }
{
    match cells.get(number) {
        None => &[],
        Some(cell) => cell.ports.items(),
    }
}

/// The number of the cell of which the instance is.
#[tactic(auto, using(crate::proofs::Bare::below_there, crate::proofs::Bare::below_past))]
fn below_of(belows: &[u32], instance: usize) -> u32
    ensures { result ≡ below_at (map nameless belows.now) instance }
{
    if instance < belows.len() {
        return belows[instance];
    }
    0
}

/// The identifier at this place.
fn ident_at(alloc: Global, idents: &[Ident], place: usize) -> Result<Ident, NoMemory>
    requires { place < length idents.now }
    ensures ident { IfOk result (λ made. made ≡ get_or idents.now place []) }
    ensures word { IfOk result IsWord }
{
    let made = copied(alloc, &idents[place])?;
    Ok(made)
}

/// The reference to a bit of a port of the cell itself, by the identifiers and the ports of the cell.
fn own_ref(
    alloc: Global,
    idents: &[Ident],
    ports: &[HPort],
    port: usize,
    bit: u32,
) -> Result<PortRef, NoMemory>
    requires { port < length idents.now }
    ensures made { IfOk result
        (λ made. made ≡ record {
          port = get_or idents.now port [];
          member = member_for (range_at ports.now port) bit;
          instance = None;
        }) }
    ensures sound { IfOk result IsPortRef }
{
    let ident = ident_at(alloc, idents, port)?;
    let member = member_of(range_of(ports, port), bit);
    Ok(PortRef {
        port: ident,
        member: OptionalInt::of(member),
        instance: OptionalIdent::none(),
    })
}

/// The reference to a bit of a port of an instance, by the identifiers and the ports of its cell, and by those of the instances.
fn inner_ref(
    alloc: Global,
    idents: &[Ident],
    ports: &[HPort],
    port: usize,
    bit: u32,
    instances: &[Ident],
    instance: usize,
) -> Result<PortRef, NoMemory>
    requires port { port < length idents.now }
    requires instance { instance < length instances.now }
    ensures made { IfOk result
        (λ made. made ≡ record {
          port = get_or idents.now port [];
          member = member_for (range_at ports.now port) bit;
          instance = Some (get_or instances.now instance []);
        }) }
    ensures sound { IfOk result IsPortRef }
{
    let ident = ident_at(alloc, idents, port)?;
    let owner = ident_at(alloc, instances, instance)?;
    let member = member_of(range_of(ports, port), bit);
    Ok(PortRef {
        port: ident,
        member: OptionalInt::of(member),
        instance: OptionalIdent::some(owner),
    })
}

/// The reference to the pin of an instance whose cell has one scalar port.
fn scalar_ref(
    alloc: Global,
    idents: &[Ident],
    instances: &[Ident],
    instance: usize,
) -> Result<PortRef, NoMemory>
    requires port { 0 < length idents.now }
    requires instance { instance < length instances.now }
    ensures made { IfOk result
        (λ made. made ≡ record {
          port = get_or idents.now 0 [];
          member = None;
          instance = Some (get_or instances.now instance []);
        }) }
    ensures sound { IfOk result IsPortRef }
{
    let ident = ident_at(alloc, idents, 0)?;
    let owner = ident_at(alloc, instances, instance)?;
    Ok(PortRef {
        port: ident,
        member: OptionalInt::of(None),
        instance: OptionalIdent::some(owner),
    })
}

/// The place of the instance that is added for a constant among those of a cell.
fn added_place(instances: &Instances, value: bool) -> usize
    requires some { 0 < length instances.now.added }
    requires fit { length instances.now.added ≤ length instances.now.idents }
    ensures { result ≡ place_of_added instances.now value }
{
    if value {
        return instances.idents.len() - 1;
    }
    instances.idents.len() - instances.added.len()
}

/// The reference to a pin bit.
fn pin_ref(
    alloc: Global,
    scope: &Scope<'_>,
    instance: u32,
    port: u32,
    bit: u32,
) -> Result<PortRef, NoMemory>
    requires fits { FitsCellPlan (cell_plan_of scope.now) }
    requires bit { IsPinBit scope.now.cells.now (cell_plan_of scope.now).cell instance port bit }
    ensures made { IfOk result
        (λ made. made ≡ pin_ref_for (cell_plan_of scope.now) instance port bit) }
    ensures sound { IfOk result IsPortRef }
{
    let below = below_of(scope.belows, instance as usize);
    let head = scope.plan.head(below);
    let ports = ports_of(scope.cells, below as usize);
    let idents = head.ports.items();
    let instances = scope.instances.idents.items();
    let made = inner_ref(
        alloc,
        idents,
        ports,
        port as usize,
        bit,
        instances,
        instance as usize,
    )?;
    Ok(made)
}

/// The reference to a port bit.
fn port_ref(alloc: Global, scope: &Scope<'_>, port: u32, bit: u32) -> Result<PortRef, NoMemory>
    requires fits { FitsCellPlan (cell_plan_of scope.now) }
    requires bit { IsPortBit (cell_plan_of scope.now).cell port bit }
    ensures made { IfOk result (λ made. made ≡ own_ref_for (cell_plan_of scope.now) port bit) }
    ensures sound { IfOk result IsPortRef }
{
    let idents = scope.head.ports.items();
    let ports = scope.shown.ports.items();
    let made = own_ref(alloc, idents, ports, port as usize, bit)?;
    Ok(made)
}

/// The reference to the pin of the instance that is added for a constant.
fn constant_ref(alloc: Global, scope: &Scope<'_>, value: bool) -> Result<PortRef, NoMemory>
    requires fits { FitsCellPlan (cell_plan_of scope.now) }
    requires pin { HasPin (cell_plan_of scope.now) value }
    ensures made { IfOk result (λ made. made ≡ constant_ref_for (cell_plan_of scope.now) value) }
    ensures sound { IfOk result IsPortRef }
{
    let place = added_place(scope.instances, value);
    let head = scope.plan.constant(value);
    let idents = head.ports.items();
    let instances = scope.instances.idents.items();
    let made = scalar_ref(alloc, idents, instances, place)?;
    Ok(made)
}

/// The reference to what the node stands for; a net has none.
#[tactic(auto, unfolding(edif_plans::specs::References::ref_for))]
fn ref_of(alloc: Global, scope: &Scope<'_>, node: Node) -> Result<Option<PortRef>, NoMemory>
    requires fits { FitsCellPlan (cell_plan_of scope.now) }
    requires there { CanRefer (cell_plan_of scope.now) node }
    ensures made { IfOk result (λ made. made ≡ ref_for (cell_plan_of scope.now) node) }
    ensures sound { IfOk result (λ made. IfSome made IsPortRef) }
{
    match node {
        Node::Port { port, bit } => {
            let made = port_ref(alloc, scope, port, bit)?;
            Ok(Some(made))
        }
        Node::Pin {
            instance,
            port,
            bit,
        } => {
            let made = pin_ref(alloc, scope, instance, port, bit)?;
            Ok(Some(made))
        }
        Node::Net(_) => Ok(None),
        Node::Zero => {
            let made = constant_ref(alloc, scope, false)?;
            Ok(Some(made))
        }
        Node::One => {
            let made = constant_ref(alloc, scope, true)?;
            Ok(Some(made))
        }
    }
}

/// Adds the reference to what the node stands for.
fn add_ref(
    alloc: Global,
    scope: &Scope<'_>,
    node: Node,
    refs: &mut Vec<PortRef>,
) -> Result<(), NoMemory>
    requires fits { FitsCellPlan (cell_plan_of scope.now) }
    requires there { CanRefer (cell_plan_of scope.now) node }
    ensures added { OnOk result (refs.new.items
        ≡ refs.old.items ++ option_to_list (ref_for (cell_plan_of scope.now) node)) }
    ensures sound { AllByRecursion IsPortRef refs.old.items
        → OnOk result (AllByRecursion IsPortRef refs.new.items) }
{
    match ref_of(alloc, scope, node)? {
        None => Ok(()),
        Some(made) => {
            refs.push(made)?;
            Ok(())
        }
    }
}

/// The references to the port bits, the pin bits and the constants of a class.
pub fn refs_of(alloc: Global, scope: &Scope<'_>, nodes: &[Node]) -> Result<Seq<PortRef>, NoMemory>
    requires fits { FitsCellPlan (cell_plan_of scope.now) }
    requires there { AllByRecursion (CanRefer (cell_plan_of scope.now)) nodes.now }
    ensures made { IfOk result (λ refs. refs ≡ refs_for (cell_plan_of scope.now) nodes.now) }
    ensures sound { IfOk result (AllByRecursion IsPortRef) }
{
    let mut refs = Vec::with_capacity(alloc, end_count(nodes))?;
    for node in nodes {
        add_ref(alloc, scope, *node, &mut refs)?;
    }
    Ok(Seq::of(refs))
}
