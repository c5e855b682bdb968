// The contents of a cell.
ghost use Rattle.std.specs.Prelude.{◌≡◌, ◌+◌, ◌<◌, Bool, [], true, length, map, IfOk};
ghost use Rattle.std.specs.List.{AllByRecursion};
ghost use Rattle.net_hier.specs.Valid.{Each};
ghost use Rattle.net_live.specs.Live.{needs_constant};
ghost use Rattle.edif_written.specs.Sound.{IsShort};
ghost use Rattle.edif_plans.specs.Made.{AreInstancesFor};
ghost use Rattle.edif_plans.specs.Plans.{FitsCells, HasConstant, HasHead, HasPorts, constant_number};
ghost use Rattle.edif_plans.specs.Sound.{AreStems};
ghost use Rattle.edif_making.specs.Contents.{AreContentsFor, HaveInstances};
ghost use Rattle.edif_making.specs.Whole.{IsWhole, whole_cell};

use crate::members::live_members;
use crate::nets::{net_idents, with_nets};
use crate::refs::Scope;
use edif_parts::{InstanceItems, instances_of, instances_with};
use edif_plans::{Head, Instances, Plan};
use edif_values::ContentsItem;
use net_bits::Classes;
use net_hier::{Constants, HCell, HInst};
use nl_base::{NoMemory, Seq};
use std::alloc::Global;

/// The numbers of the cells of the instances.
fn belows_of(alloc: Global, instances: &[HInst]) -> Result<Vec<u32>, NoMemory>
    ensures { IfOk result (λ belows. belows.items ≡ map (λ one. one.cell) instances.now) }
{
    let mut belows = Vec::with_capacity(alloc, instances.len())?;
    for instance in instances {
        belows.push(instance.cell)?;
    }
    Ok(belows)
}

/// The instances that are written for those of a cell, which are left, with room for so many parts behind them.
fn instances_made(
    alloc: Global,
    plan: &Plan,
    instances: &Instances,
    own: Seq<HInst>,
    behind: usize,
) -> Result<InstanceItems, NoMemory>
    requires heads { Each (λ instance. HasHead plan.now instance.cell) own }
    requires constants { Each (λ one. constant_number plan.now one.value
        < length plan.now.heads) instances.now.added }
    requires idents { length own + length instances.now.added ≡ length instances.now.idents }
    requires short { AllByRecursion (λ one. IsShort one.name) instances.now.added }
    ensures { IfOk result (λ made. AreInstancesFor plan.now own instances.now made) }
{
    let made = instances_of(alloc, plan, instances, own.items(), behind)?;
    Ok(made)
}

/// The parts of contents that are written for the instances of a cell, in a list with room for so many parts behind them.
fn instances_written(
    alloc: Global,
    plan: &Plan,
    instances: &Instances,
    own: Seq<HInst>,
    behind: usize,
) -> Result<Vec<ContentsItem>, NoMemory>
    requires heads { Each (λ instance. HasHead plan.now instance.cell) own }
    requires constants { Each (λ one. constant_number plan.now one.value
        < length plan.now.heads) instances.now.added }
    requires idents { length own + length instances.now.added ≡ length instances.now.idents }
    requires short { AllByRecursion (λ one. IsShort one.name) instances.now.added }
    ensures { IfOk result (λ items. HaveInstances
        (AreInstancesFor plan.now own instances.now) items.items) }
{
    let made = instances_made(alloc, plan, instances, own, behind)?;
    Ok(made.into_items())
}

/// The contents of the cell that is written for the one with these ports, these instances and the nets of `inside`, under this head: its
/// instances, and then its nets. The classes are left before the nets are made, which need the nodes of the live ones alone, and so are the
/// instances, of which the nets need the numbers of their cells. The nodes are listed before the instances get identifiers: in
/// this order the peak of memory is the least.
pub(crate) fn contents_of(
    alloc: Global,
    cells: &[HCell],
    constants: &Constants,
    plan: &Plan,
    head: &Head,
    shown: &HCell,
    own: Seq<HInst>,
    inside: &HCell,
    classes: Classes,
) -> Result<Vec<ContentsItem>, NoMemory>
    requires plan { FitsCells cells.now plan.now }
    requires ports { HasPorts head.now shown.now }
    requires whole { IsWhole cells.now shown.now own inside.now classes }
    requires constants { (value : Bool) → needs_constant classes value ≡ true
        → HasConstant plan.now value }
    requires stems { AreStems constants.now }
    ensures { IfOk result (λ items. AreContentsFor constants.now cells.now plan.now head.now
        (whole_cell shown.now own inside.now []) classes items.items) }
{
    let members = live_members(alloc, inside, &classes)?;
    let instances = instances_with(alloc, constants, own.items(), &classes)?;
    drop(classes);
    let idents = net_idents(alloc, shown, inside, &members)?;
    let belows = belows_of(alloc, own.items())?;
    let first = instances_written(alloc, plan, &instances, own, members.len())?;
    let scope = Scope {
        cells,
        plan,
        shown,
        inside,
        belows: belows.as_slice(),
        head,
        instances: &instances,
    };
    let items = with_nets(alloc, &scope, &members, idents, first)?;
    Ok(items)
}
