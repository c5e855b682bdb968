// Instances.
ghost use Rattle.std.specs.Prelude.{◌≡◌, ◌+◌, ◌<◌, ◌≤◌, length, IfOk};
ghost use Rattle.std.specs.List.{AllByRecursion};
ghost use Rattle.readers.specs.Readers.{same, room, Reads, ReadsMaybe};
ghost use Rattle.vlog_values.specs.Values.{AreSome, IsName, AreAttrs, IsParamSet, IsInstance, AreInstances};
ghost use Rattle.vlog_values.specs.Sizes.{list_size, instance_size, instances_size};
ghost use Rattle.vlog_tokens.specs.Language.{vlog};
ghost use Rattle.vlog_exprs.specs.Grammar.{mark, list};
ghost use Rattle.vlog_items.specs.Grammar.{instance, override_rest, override_set, overrides, instances};

use crate::connection::read_conns;
use nl_base::{BoxedList, ReadError, Text};
use nl_io::Source;
use std::alloc::Global;
use vlog_exprs::{VCursor, read_const};
use vlog_values::{Attr, Instances, ParamSet, VInst};

/// Reads an instance.
#[tactic(auto, using(readers::proofs::Reading::sequences), unfolding(crate::specs::Grammar::instance))]
fn read_instance<S: Source>(
    alloc: Global,
    cursor: &mut VCursor,
    source: &mut S,
) -> Result<VInst, ReadError>
    ensures reads { Reads vlog same instance result cursor.old cursor.new
        (S.supply source.old) (S.supply source.new) }
    ensures value { IfOk result IsInstance }
    ensures size { IfOk result (λ inst. instance_size inst + room cursor.new < room cursor.old) }
{
    let name = cursor.name(alloc, source)?;
    cursor.mark(alloc, b'(', source)?;
    let conns = read_conns(alloc, cursor, source)?;
    Ok(VInst { name, conns })
}

/// Reads one instance or more, up to the `;`.
#[tactic(auto, using(readers::proofs::Choices::loops), unfolding(vlog_exprs::specs::Grammar::list, vlog_exprs::specs::Grammar::commas))]
fn read_insts<S: Source>(
    alloc: Global,
    cursor: &mut VCursor,
    source: &mut S,
) -> Result<BoxedList<VInst>, ReadError>
    ensures reads { Reads vlog same (list instance (mark 59)) result cursor.old cursor.new
        (S.supply source.old) (S.supply source.new) }
    ensures value { IfOk result (AreSome IsInstance) }
    ensures size { IfOk result
        (λ insts. list_size instance_size insts + room cursor.new < room cursor.old) }
{
    let mut insts = BoxedList::empty();
    let inst = read_instance(alloc, cursor, source)?;
    cursor.add_boxed(alloc, &mut insts, inst)?;
    while cursor.takes(alloc, b',', source)? {
        let inst = read_instance(alloc, cursor, source)?;
        cursor.add_boxed(alloc, &mut insts, inst)?;
    }
    cursor.mark(alloc, b';', source)?;
    Ok(insts)
}

/// Reads on behind the point of the value of a parameter of an instance.
#[inline(always)]
#[tactic(auto, using(readers::proofs::Reading::sequences), unfolding(crate::specs::Grammar::override_rest))]
fn read_override_rest<S: Source>(
    alloc: Global,
    cursor: &mut VCursor,
    source: &mut S,
) -> Result<ParamSet, ReadError>
    ensures reads { Reads vlog same override_rest result cursor.old cursor.new
        (S.supply source.old) (S.supply source.new) }
    ensures value { IfOk result IsParamSet }
{
    let name = cursor.name(alloc, source)?;
    cursor.mark(alloc, b'(', source)?;
    let value = read_const(alloc, cursor, source)?;
    cursor.mark(alloc, b')', source)?;
    Ok(ParamSet { name, value })
}

/// Reads the value of a parameter of an instance.
#[inline(always)]
#[tactic(auto, using(readers::proofs::Reading::sequences), unfolding(crate::specs::Grammar::override_set))]
fn read_override<S: Source>(
    alloc: Global,
    cursor: &mut VCursor,
    source: &mut S,
) -> Result<ParamSet, ReadError>
    ensures reads { Reads vlog same override_set result cursor.old cursor.new
        (S.supply source.old) (S.supply source.new) }
    ensures value { IfOk result IsParamSet }
{
    cursor.mark(alloc, b'.', source)?;
    let set = read_override_rest(alloc, cursor, source)?;
    Ok(set)
}

/// Reads the value of one parameter or more of an instance, up to the `)`.
#[tactic(auto, using(readers::proofs::Choices::loops), unfolding(vlog_exprs::specs::Grammar::list, vlog_exprs::specs::Grammar::commas))]
fn read_override_list<S: Source>(
    alloc: Global,
    cursor: &mut VCursor,
    source: &mut S,
) -> Result<BoxedList<ParamSet>, ReadError>
    ensures reads { Reads vlog same (list override_set (mark 41)) result cursor.old cursor.new
        (S.supply source.old) (S.supply source.new) }
    ensures value { IfOk result (AreSome IsParamSet) }
    ensures size { IfOk result (λ sets. length sets + room cursor.new < room cursor.old) }
{
    let mut sets = BoxedList::empty();
    let set = read_override(alloc, cursor, source)?;
    cursor.add_boxed(alloc, &mut sets, set)?;
    while cursor.takes(alloc, b',', source)? {
        let set = read_override(alloc, cursor, source)?;
        cursor.add_boxed(alloc, &mut sets, set)?;
    }
    cursor.mark(alloc, b')', source)?;
    Ok(sets)
}

/// Reads the values of parameters of instances, where they stand.
#[tactic(auto, using(readers::proofs::Choices::choices), unfolding(crate::specs::Grammar::overrides, vlog_exprs::specs::Grammar::after))]
fn read_overrides<S: Source>(
    alloc: Global,
    cursor: &mut VCursor,
    source: &mut S,
) -> Result<BoxedList<ParamSet>, ReadError>
    ensures reads { ReadsMaybe vlog same overrides result cursor.old cursor.new
        (S.supply source.old) (S.supply source.new) }
    ensures value { IfOk result (AllByRecursion IsParamSet) }
    ensures size { IfOk result (λ sets. length sets + room cursor.new ≤ room cursor.old) }
{
    if cursor.takes(alloc, b'#', source)? {
        cursor.mark(alloc, b'(', source)?;
        let sets = read_override_list(alloc, cursor, source)?;
        return Ok(sets);
    }
    Ok(BoxedList::empty())
}

/// Reads on behind the name of a module.
#[tactic(auto, using(readers::proofs::Reading::sequences), unfolding(crate::specs::Grammar::instances))]
pub(crate) fn read_instances<S: Source>(
    alloc: Global,
    cursor: &mut VCursor,
    attrs: BoxedList<Attr>,
    of_module: Text,
    source: &mut S,
) -> Result<Instances, ReadError>
    requires attrs { AreAttrs attrs }
    requires name { IsName of_module }
    ensures reads { Reads vlog same (instances attrs of_module) result cursor.old cursor.new
        (S.supply source.old) (S.supply source.new) }
    ensures value { IfOk result AreInstances }
    ensures size { IfOk result
        (λ s. instances_size s + room cursor.new < room cursor.old + length attrs) }
{
    let params = read_overrides(alloc, cursor, source)?;
    let insts = read_insts(alloc, cursor, source)?;
    Ok(Instances {
        attrs,
        module: of_module,
        params,
        insts,
    })
}
