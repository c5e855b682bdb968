// The instances that are added for the constants.
ghost use Rattle.std.specs.Prelude.{◌≡◌, ◌++◌, ◌∷◌, ◌||◌, [], true, false, cond, map, IfOk, OnOk};
ghost use Rattle.net_hier.specs.Constants.{ConstantNames, name_of_constant};
ghost use Rattle.std.specs.List.{AllByRecursion};
ghost use Rattle.net_live.specs.Live.{AreCounted, needs_constant as needs_constant_of};
ghost use Rattle.net_bits.specs.Names.{has_name};
ghost use Rattle.edif_written.specs.Naming.{seen};
ghost use Rattle.edif_written.specs.Sound.{IsShort};
ghost use Rattle.edif_spaces.specs.Spaces.{AreIdents};
ghost use Rattle.edif_plans.specs.AddedNames.{AreNamedFor, IsFirstFree};
ghost use Rattle.edif_plans.specs.Summaries.{instance_names};
ghost use Rattle.edif_plans.specs.Made.{AreAddedTo};
ghost use Rattle.edif_plans.specs.Sound.{AreStems, IsStem};
ghost use Rattle.edif_parts.specs.Added.{AreAdded, HasNames};

use edif_plans::{Added, Instances};
use edif_spaces::idents_of;
use net_bits::{Classes, Names, fresh_name};
use net_hier::{ConstName, Constants, HInst};
use net_live::needs_constant;
use nl_base::{Ident, NoMemory, Seq, Text};
use std::alloc::Global;

/// The stem itself where it is not used, else the stem and the least number that is free.
#[tactic(auto, using(crate::proofs::AddedLaws::stem_short, crate::proofs::AddedLaws::fresh_short, crate::proofs::AddedLaws::own_first, crate::proofs::AddedLaws::made_first))]
fn free_name(alloc: Global, used: &Names, stem: &[u8]) -> Result<Text, NoMemory>
    ensures free { IfOk result (λ name. has_name used.now name ≡ false) }
    ensures short { IsStem stem.now → IfOk result IsShort }
    ensures first { IfOk result (IsFirstFree used.now stem.now) }
{
    if !used.has(stem) {
        let name = Text::copy(alloc, stem)?;
        return Ok(name);
    }
    let (name, _number) = fresh_name(alloc, used, stem, 0)?;
    Ok(name)
}

/// The names of instances, told apart byte for byte.
fn used_names(alloc: Global, own: &[HInst]) -> Result<Names, NoMemory>
    ensures { IfOk result (λ names. HasNames names (instance_names own.now [])) }
{
    let mut names = Names::new(alloc, false);
    for instance in own {
        names.add(alloc, instance.name.bytes())?;
    }
    Ok(names)
}

/// Adds the instance of a constant under the first free name.
fn add_instance(
    alloc: Global,
    own: &[HInst],
    used: &mut Names,
    value: bool,
    stem: &[u8],
    added: &mut Seq<Added>,
) -> Result<(), NoMemory>
    requires stem { IsStem stem.now }
    requires named { HasNames used.old (instance_names own.now added.old) }
    requires before { AreAdded own.now added.old }
    ensures named { OnOk result (HasNames used.new (instance_names own.now added.new)) }
    ensures after { OnOk result (AreAdded own.now added.new) }
    ensures values { OnOk result (map (λ one. one.value) added.new
        ≡ map (λ one. one.value) added.old ++ value ∷ []) }
    ensures first { (names : ConstantNames) → (name_of_constant names value).cell ≡ stem.now
        → AreNamedFor names own.now added.old → OnOk result (AreNamedFor names own.now added.new) }
{
    let name = free_name(alloc, used, stem)?;
    let word = name.bytes();
    used.add(alloc, word)?;
    added.push(Added { value, name })?;
    Ok(())
}

/// Adds the instance of a constant, where the cell needs it.
#[tactic(auto, using(crate::proofs::AddedLaws::none_needed, crate::proofs::AddedLaws::one_needed))]
fn add_constant(
    alloc: Global,
    own: &[HInst],
    classes: &Classes,
    used: &mut Names,
    value: bool,
    constant: &ConstName,
    added: &mut Seq<Added>,
) -> Result<(), NoMemory>
    requires counted { AreCounted classes.now }
    requires stem { IsStem constant.now.cell }
    requires named { HasNames used.old (instance_names own.now added.old) }
    requires before { AreAdded own.now added.old }
    ensures named { OnOk result (HasNames used.new (instance_names own.now added.new)) }
    ensures after { OnOk result (AreAdded own.now added.new) }
    ensures values { OnOk result (map (λ one. one.value) added.new
        ≡ map (λ one. one.value) added.old
        ++ cond (needs_constant_of classes.now value) (value ∷ []) []) }
    ensures first { (names : ConstantNames)
        → (name_of_constant names value).cell ≡ constant.now.cell
        → AreNamedFor names own.now added.old → OnOk result (AreNamedFor names own.now added.new) }
{
    if !needs_constant(classes, value) {
        return Ok(());
    }
    add_instance(alloc, own, used, value, constant.cell.bytes(), added)?;
    Ok(())
}

/// Whether the cell needs a constant.
fn needs_any(classes: &Classes) -> bool
    requires { AreCounted classes.now }
    ensures { result ≡ (needs_constant_of classes.now false || needs_constant_of classes.now true) }
{
    needs_constant(classes, false) || needs_constant(classes, true)
}

/// The instances that are added to a cell: that of the zero and then that of the one, each where the cell needs it.
#[tactic(auto, using(crate::proofs::AddedLaws::none_added, crate::proofs::AddedLaws::none_named, crate::proofs::AddedLaws::two_values))]
fn named_apart(
    alloc: Global,
    constants: &Constants,
    own: &[HInst],
    classes: &Classes,
) -> Result<Seq<Added>, NoMemory>
    requires counted { AreCounted classes.now }
    requires stems { AreStems constants.now }
    ensures after { IfOk result (AreAdded own.now) }
    ensures values { IfOk result
        (λ added. map (λ one. one.value) added
        ≡ cond (needs_constant_of classes.now false) (false ∷ []) []
        ++ cond (needs_constant_of classes.now true) (true ∷ []) []) }
    ensures first { IfOk result (AreNamedFor constants.now own.now) }
{
    let mut used = used_names(alloc, own)?;
    let mut added = Seq::empty(alloc);
    add_constant(
        alloc,
        own,
        classes,
        &mut used,
        false,
        constants.zero(),
        &mut added,
    )?;
    add_constant(
        alloc,
        own,
        classes,
        &mut used,
        true,
        constants.one(),
        &mut added,
    )?;
    Ok(added)
}

/// The instances that are added to a cell, for which no names are gathered where it needs no constant.
#[tactic(auto, using(crate::proofs::AddedLaws::none_added, crate::proofs::AddedLaws::nothing_needed, crate::proofs::AddedLaws::none_first))]
fn added_to(
    alloc: Global,
    constants: &Constants,
    own: &[HInst],
    classes: &Classes,
) -> Result<Seq<Added>, NoMemory>
    requires counted { AreCounted classes.now }
    requires stems { AreStems constants.now }
    ensures after { IfOk result (AreAdded own.now) }
    ensures values { IfOk result
        (λ added. map (λ one. one.value) added
        ≡ cond (needs_constant_of classes.now false) (false ∷ []) []
        ++ cond (needs_constant_of classes.now true) (true ∷ []) []) }
    ensures first { IfOk result (AreNamedFor constants.now own.now) }
{
    if !needs_any(classes) {
        return Ok(Seq::empty(alloc));
    }
    named_apart(alloc, constants, own, classes)
}

/// The names of the instances of a cell and of those that are added.
fn all_names<'a>(
    alloc: Global,
    own: &'a [HInst],
    added: &'a [Added],
) -> Result<Vec<&'a [u8]>, NoMemory>
    ensures { IfOk result (λ names. seen names.items ≡ instance_names own.now added.now) }
{
    let mut names = Vec::with_capacity(alloc, own.len().saturating_add(added.len()))?;
    for instance in own {
        names.push(instance.name.bytes())?;
    }
    for one in added {
        names.push(one.name.bytes())?;
    }
    Ok(names)
}

/// The identifiers of the instances of a cell and of those that are added.
fn idents_with(alloc: Global, own: &[HInst], added: &[Added]) -> Result<Seq<Ident>, NoMemory>
    ensures { IfOk result (AreIdents (instance_names own.now added.now)) }
{
    let names = all_names(alloc, own, added)?;
    let idents = idents_of(alloc, names.as_slice())?;
    Ok(idents)
}

/// The instances that are added to a cell for the constants that it needs, and identifiers for its instances and for these. Each is named
/// after the cell of its constant: by that name where no instance before it has it, else by that name and the least number that is free.
pub fn instances_with(
    alloc: Global,
    constants: &Constants,
    own: &[HInst],
    classes: &Classes,
) -> Result<Instances, NoMemory>
    requires counted { AreCounted classes.now }
    requires stems { AreStems constants.now }
    ensures added { IfOk result (AreAddedTo own.now classes.now) }
    ensures named { IfOk result (λ instances. AreNamedFor constants.now own.now instances.added) }
{
    let added = added_to(alloc, constants, own, classes)?;
    let idents = idents_with(alloc, own, added.items())?;
    Ok(Instances { idents, added })
}
