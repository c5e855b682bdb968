// The parameters of a module's header.
ghost use Rattle.std.specs.Prelude.{◌≡◌, ◌+◌, ◌<◌, ◌≤◌, ◌∷◌, [], IfOk};
ghost use Rattle.std.specs.List.{AllByRecursion};
ghost use Rattle.readers.specs.Readers.{same, room, Reads, ReadsMaybe};
ghost use Rattle.vlog_values.specs.Values.{IsName, IsParamGroup};
ghost use Rattle.vlog_values.specs.Sizes.{list_size, param_size};
ghost use Rattle.vlog_tokens.specs.Language.{vlog};
ghost use Rattle.vlog_modules.specs.States.{AreGroups, groups_size};
ghost use Rattle.vlog_modules.specs.Grammar.{param_group, more_set, param_turn, param_groups, params_rest, params};

use nl_base::{BoxedList, ReadError, Seq, Text};
use nl_io::Source;
use std::alloc::Global;
use vlog_exprs::{VCursor, read_const};
use vlog_items::{read_param_set, read_param_type};
use vlog_values::{ParamDecl, ParamSet};

/// Groups of parameters, of which the last may get further parameters.
#[derive(Drop)]
pub(crate) struct ParamGroups {
    pub(crate) before: Seq<ParamDecl>,
    pub(crate) last: ParamDecl,
}

/// Reads a group with its first parameter.
#[tactic(auto, using(readers::proofs::Reading::sequences), unfolding(crate::specs::Grammar::param_group))]
fn read_param_group<S: Source>(
    alloc: Global,
    cursor: &mut VCursor,
    source: &mut S,
) -> Result<ParamDecl, ReadError>
    ensures reads { Reads vlog same param_group result cursor.old cursor.new
        (S.supply source.old) (S.supply source.new) }
    ensures value { IfOk result IsParamGroup }
    ensures size { IfOk result (λ group. param_size group + room cursor.new < room cursor.old) }
{
    cursor.keyword(alloc, b"parameter", source)?;
    let kind = read_param_type(alloc, cursor, source)?;
    let set = read_param_set(alloc, cursor, source)?;
    let mut sets = Seq::empty(alloc);
    cursor.add(&mut sets, set)?;
    Ok(ParamDecl {
        attrs: BoxedList::empty(),
        kind,
        sets,
    })
}

/// Reads the value of one more parameter of the last group.
#[tactic(auto, using(readers::proofs::Reading::sequences), unfolding(crate::specs::Grammar::more_set))]
fn read_more_set<S: Source>(
    alloc: Global,
    cursor: &mut VCursor,
    groups: ParamGroups,
    name: Text,
    source: &mut S,
) -> Result<ParamGroups, ReadError>
    requires groups { AreGroups groups }
    requires name { IsName name }
    ensures reads { Reads vlog same (more_set groups name) result cursor.old cursor.new
        (S.supply source.old) (S.supply source.new) }
    ensures value { IfOk result AreGroups }
    ensures size { IfOk result
        (λ gs. groups_size gs + room cursor.new ≤ room cursor.old + groups_size groups) }
{
    cursor.mark(alloc, b'=', source)?;
    let value = read_const(alloc, cursor, source)?;
    let ParamGroups { before, mut last } = groups;
    cursor.add(&mut last.sets, ParamSet { name, value })?;
    Ok(ParamGroups { before, last })
}

/// Reads on behind a comma: a parameter of the last group, or a new group.
#[tactic(auto, using(readers::proofs::Choices::choices), unfolding(crate::specs::Grammar::param_turn))]
fn read_param_turn<S: Source>(
    alloc: Global,
    cursor: &mut VCursor,
    groups: ParamGroups,
    source: &mut S,
) -> Result<ParamGroups, ReadError>
    requires { AreGroups groups }
    ensures reads { Reads vlog same (param_turn groups) result cursor.old cursor.new
        (S.supply source.old) (S.supply source.new) }
    ensures value { IfOk result AreGroups }
    ensures size { IfOk result
        (λ gs. groups_size gs + room cursor.new ≤ room cursor.old + groups_size groups) }
{
    match cursor.takes_name(alloc, source)? {
        Some(name) => {
            let groups = read_more_set(alloc, cursor, groups, name, source)?;
            Ok(groups)
        }
        None => {
            let next = read_param_group(alloc, cursor, source)?;
            let ParamGroups { mut before, last } = groups;
            cursor.add(&mut before, last)?;
            Ok(ParamGroups { before, last: next })
        }
    }
}

/// Reads further parameters and groups up to the `)`.
#[tactic(auto, using(readers::proofs::Choices::loops), unfolding(crate::specs::Grammar::param_groups))]
fn read_param_groups<S: Source>(
    alloc: Global,
    cursor: &mut VCursor,
    first: ParamGroups,
    source: &mut S,
) -> Result<Seq<ParamDecl>, ReadError>
    requires { AreGroups first }
    ensures reads { Reads vlog same (param_groups first) result cursor.old cursor.new
        (S.supply source.old) (S.supply source.new) }
    ensures value { IfOk result (AllByRecursion IsParamGroup) }
    ensures size { IfOk result
        (λ gs. list_size param_size gs + room cursor.new < room cursor.old + groups_size first) }
{
    let mut groups = first;
    while cursor.takes(alloc, b',', source)? {
        groups = read_param_turn(alloc, cursor, groups, source)?;
    }
    cursor.mark(alloc, b')', source)?;
    let ParamGroups { mut before, last } = groups;
    cursor.add(&mut before, last)?;
    Ok(before)
}

/// Reads the parameters of a header, behind the `#`.
#[tactic(auto, using(readers::proofs::Reading::sequences), unfolding(crate::specs::Grammar::params_rest))]
fn read_params_rest<S: Source>(
    alloc: Global,
    cursor: &mut VCursor,
    source: &mut S,
) -> Result<Seq<ParamDecl>, ReadError>
    ensures reads { Reads vlog same params_rest result cursor.old cursor.new
        (S.supply source.old) (S.supply source.new) }
    ensures value { IfOk result (AllByRecursion IsParamGroup) }
    ensures size { IfOk result (λ gs. list_size param_size gs + room cursor.new ≤ room cursor.old) }
{
    cursor.mark(alloc, b'(', source)?;
    let last = read_param_group(alloc, cursor, source)?;
    let first = ParamGroups {
        before: Seq::empty(alloc),
        last,
    };
    let groups = read_param_groups(alloc, cursor, first, source)?;
    Ok(groups)
}

/// Reads the parameters of a module's header, which may be left out.
#[tactic(auto, using(readers::proofs::Choices::choices), unfolding(crate::specs::Grammar::params, vlog_exprs::specs::Grammar::after))]
pub(crate) fn read_params<S: Source>(
    alloc: Global,
    cursor: &mut VCursor,
    source: &mut S,
) -> Result<Seq<ParamDecl>, ReadError>
    ensures reads { ReadsMaybe vlog same params result cursor.old cursor.new
        (S.supply source.old) (S.supply source.new) }
    ensures value { IfOk result (AllByRecursion IsParamGroup) }
    ensures size { IfOk result (λ gs. list_size param_size gs + room cursor.new ≤ room cursor.old) }
{
    if cursor.takes(alloc, b'#', source)? {
        let groups = read_params_rest(alloc, cursor, source)?;
        return Ok(groups);
    }
    Ok(Seq::empty(alloc))
}
