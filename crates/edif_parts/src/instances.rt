// The instances of a cell, those of the constants among them.
ghost use Rattle.std.specs.Prelude.{◌≡◌, ◌+◌, ◌<◌, ◌≤◌, ◌++◌, [], drop, length, map, IfOk};
ghost use Rattle.std.specs.List.{AllByRecursion};
ghost use Rattle.net_hier.specs.Valid.{Each};
ghost use Rattle.edif_values.specs.Values.{IsInstance, IsProperty};
ghost use Rattle.edif_written.specs.Naming.{value_of};
ghost use Rattle.edif_written.specs.Sound.{AreSoundProps, IsShort};
ghost use Rattle.net_live.specs.Last.{last_of as last_values_of};
ghost use Rattle.edif_plans.specs.Summaries.{added_summary, instance_summary, instance_ident, own_summary};
ghost use Rattle.edif_plans.specs.Made.{AreInstancesFor};
ghost use Rattle.edif_plans.specs.NetNames.{HasNoSpareText};
ghost use Rattle.edif_plans.specs.Plans.{HasHead, constant_number};
ghost use Rattle.edif_plans.specs.Sound.{IsSoundInstance};

use crate::instance::instance_of;
use crate::items::InstanceItems;
use edif_naming::last_properties;
use edif_plans::{Added, Instances, Plan};
use edif_values::{Instance, Property};
use net_hier::HInst;
use nl_base::{Ident, NoMemory};
use std::alloc::Global;

/// The properties of an instance, the last value of each name.
fn instance_properties(alloc: Global, instance: &HInst) -> Result<Vec<Property>, NoMemory>
    ensures values { IfOk result
        (λ made. map value_of made.items ≡ last_values_of instance.now.props) }
    ensures sound { AreSoundProps instance.now.props
        → IfOk result (λ made. AllByRecursion IsProperty made.items) }
{
    let properties = last_properties(alloc, instance.props.items())?;
    Ok(properties)
}

/// The instance that is written for one of the design.
fn own_instance(
    alloc: Global,
    plan: &Plan,
    ident: &Ident,
    instance: &HInst,
) -> Result<Instance, NoMemory>
    requires { HasHead plan.now instance.now.cell }
    ensures ident { IfOk result (λ made. instance_ident made ≡ ident.now) }
    ensures summary { IfOk result
        (λ made. instance_summary made ≡ own_summary plan.now instance.now) }
    ensures sound { IsSoundInstance instance.now → IfOk result IsInstance }
    ensures no_spare_text { IfOk result (λ made. HasNoSpareText made.name) }
{
    let properties = instance_properties(alloc, instance)?;
    let head = plan.head(instance.cell);
    let made = instance_of(alloc, ident, instance.name.bytes(), &head.cell, properties)?;
    Ok(made)
}

/// The instances that are written for those of the design, under the first identifiers, with room for so many parts behind.
fn own_instances(
    alloc: Global,
    plan: &Plan,
    idents: &[Ident],
    instances: &[HInst],
    room: usize,
) -> Result<InstanceItems, NoMemory>
    requires heads { Each (λ instance. HasHead plan.now instance.cell) instances.now }
    requires idents { length instances.now ≤ length idents.now }
    ensures idents { IfOk result
        (λ made. map instance_ident made ++ drop (length instances.now) idents.now
        ≡ idents.now) }
    ensures summaries { IfOk result
        (λ made. map instance_summary made ≡ map (own_summary plan.now) instances.now) }
    ensures sound { AllByRecursion IsSoundInstance instances.now
        → IfOk result (λ made. AllByRecursion IsInstance made) }
    ensures no_spare_text { IfOk result (λ made.
        AllByRecursion (λ instance. HasNoSpareText instance.name) made) }
{
    let mut made = InstanceItems::with_room(alloc, room)?;
    for place in 0..instances.len() {
        let instance = own_instance(alloc, plan, &idents[place], &instances[place])?;
        made.push(instance)?;
    }
    Ok(made)
}

/// The instance that is written for a constant.
fn added_instance(
    alloc: Global,
    plan: &Plan,
    ident: &Ident,
    added: &Added,
) -> Result<Instance, NoMemory>
    requires { constant_number plan.now added.now.value < length plan.now.heads }
    ensures ident { IfOk result (λ made. instance_ident made ≡ ident.now) }
    ensures summary { IfOk result
        (λ made. instance_summary made ≡ added_summary plan.now added.now) }
    ensures sound { IsShort added.now.name → IfOk result IsInstance }
    ensures no_spare_text { IfOk result (λ made. HasNoSpareText made.name) }
{
    let head = plan.constant(added.value);
    let made = instance_of(
        alloc,
        ident,
        added.name.bytes(),
        &head.cell,
        Vec::new(alloc),
    )?;
    Ok(made)
}

/// The instances of a cell and then those of the constants, where these are its own.
fn with_added(
    alloc: Global,
    plan: &Plan,
    idents: &[Ident],
    added: &[Added],
    own: InstanceItems,
) -> Result<InstanceItems, NoMemory>
    requires heads { Each (λ one. constant_number plan.now one.value
        < length plan.now.heads) added.now }
    requires idents { length own + length added.now ≡ length idents.now }
    requires named { map instance_ident own ++ drop (length own) idents.now
        ≡ idents.now }
    ensures idents { IfOk result (λ made. map instance_ident made ≡ idents.now) }
    ensures summaries { IfOk result
        (λ made. map instance_summary made
        ≡ map instance_summary own ++ map (added_summary plan.now) added.now) }
    ensures sound { AllByRecursion IsInstance own
        → AllByRecursion (λ one. IsShort one.name) added.now
        → IfOk result (λ made. AllByRecursion IsInstance made) }
    ensures no_spare_text { AllByRecursion (λ instance. HasNoSpareText instance.name) own
        → IfOk result (λ made. AllByRecursion (λ instance. HasNoSpareText instance.name) made) }
{
    let mut made = own;
    for one in added {
        let place = made.len();
        let instance = added_instance(alloc, plan, &idents[place], one)?;
        made.push(instance)?;
    }
    Ok(made)
}

/// The instances of a cell, its own and then those of the constants, with room for so many other parts of the cell behind them.
pub fn instances_of(
    alloc: Global,
    plan: &Plan,
    instances: &Instances,
    own: &[HInst],
    behind: usize,
) -> Result<InstanceItems, NoMemory>
    requires heads { Each (λ instance. HasHead plan.now instance.cell) own.now }
    requires constants { Each (λ one. constant_number plan.now one.value
        < length plan.now.heads) instances.now.added }
    requires idents { length own.now + length instances.now.added ≡ length instances.now.idents }
    ensures idents { IfOk result (λ made. map instance_ident made ≡ instances.now.idents) }
    ensures summaries { IfOk result
        (λ made. map instance_summary made
        ≡ map (own_summary plan.now) own.now ++ map (added_summary plan.now) instances.now.added) }
    ensures sound { AllByRecursion IsSoundInstance own.now
        → AllByRecursion (λ one. IsShort one.name) instances.now.added
        → IfOk result (λ made. AllByRecursion IsInstance made) }
    ensures no_spare_text { IfOk result (λ made.
        AllByRecursion (λ instance. HasNoSpareText instance.name) made) }
{
    let idents = instances.idents.items();
    let added = instances.added.items();
    let room = idents.len().saturating_add(behind);
    let first = own_instances(alloc, plan, idents, own, room)?;
    let made = with_added(alloc, plan, idents, added, first)?;
    Ok(made)
}
