// Declarations of parameters.
ghost use Rattle.std.specs.Prelude.{◌≡◌, ◌+◌, ◌<◌, length, IfOk, IfSome};
ghost use Rattle.readers.specs.Readers.{same, room, Reads, ReadsMaybe, TakesNext};
ghost use Rattle.vlog_values.specs.Values.{AreSome, AreAttrs, IsParamType, IsParamSet, IsParamDecl};
ghost use Rattle.vlog_values.specs.Sizes.{param_size};
ghost use Rattle.vlog_exprs.specs.Reasons as say;
ghost use Rattle.vlog_tokens.specs.Language.{vlog};
ghost use Rattle.vlog_exprs.specs.Grammar.{mark, list};
ghost use Rattle.vlog_items.specs.Grammar.{param_type_words, plain_type, param_type, param_set, param_item};

use crate::declaration::read_signed;
use nl_base::{BoxedList, ReadError, Seq};
use nl_io::Source;
use std::alloc::Global;
use vlog_exprs::{VCursor, read_const, read_range_if_any};
use vlog_values::{Attr, ParamDecl, ParamSet, ParamType};

/// Reads the type of a parameter that is no one word.
#[tactic(auto, using(readers::proofs::Reading::sequences), unfolding(crate::specs::Grammar::plain_type))]
fn read_plain_type<S: Source>(
    alloc: Global,
    cursor: &mut VCursor,
    source: &mut S,
) -> Result<ParamType, ReadError>
    ensures reads { ReadsMaybe vlog same plain_type result cursor.old cursor.new
        (S.supply source.old) (S.supply source.new) }
    ensures value { IfOk result IsParamType }
{
    let signed = read_signed(alloc, cursor, source)?;
    let range = read_range_if_any(alloc, cursor, source)?;
    Ok(ParamType::Plain { signed, range })
}

/// Reads the type of a parameter that is one word, where one stands.
fn read_type_word<S: Source>(
    alloc: Global,
    cursor: &mut VCursor,
    source: &mut S,
) -> Result<Option<ParamType>, ReadError>
    ensures reads { TakesNext vlog same
        (λ _ x. say.at_choice param_type_words x.token) result cursor.old cursor.new
        (S.supply source.old) (S.supply source.new) }
    ensures value { IfOk result (λ kind. IfSome kind IsParamType) }
{
    cursor.takes_choice(
        alloc,
        &[(b"integer", ParamType::Integer), (b"real", ParamType::Real)],
        source,
    )
}

/// Reads the type of a parameter, which may be of no token.
#[tactic(auto, using(readers::proofs::Choices::choices), unfolding(crate::specs::Grammar::param_type))]
pub fn read_param_type<S: Source>(
    alloc: Global,
    cursor: &mut VCursor,
    source: &mut S,
) -> Result<ParamType, ReadError>
    ensures reads { ReadsMaybe vlog same param_type result cursor.old cursor.new
        (S.supply source.old) (S.supply source.new) }
    ensures value { IfOk result IsParamType }
{
    match read_type_word(alloc, cursor, source)? {
        Some(kind) => Ok(kind),
        None => {
            let kind = read_plain_type(alloc, cursor, source)?;
            Ok(kind)
        }
    }
}

/// Reads a name of a parameter and its value.
#[tactic(auto, using(readers::proofs::Reading::sequences), unfolding(crate::specs::Grammar::param_set))]
pub fn read_param_set<S: Source>(
    alloc: Global,
    cursor: &mut VCursor,
    source: &mut S,
) -> Result<ParamSet, ReadError>
    ensures reads { Reads vlog same param_set result cursor.old cursor.new
        (S.supply source.old) (S.supply source.new) }
    ensures value { IfOk result IsParamSet }
{
    let name = cursor.name(alloc, source)?;
    cursor.mark(alloc, b'=', source)?;
    let value = read_const(alloc, cursor, source)?;
    Ok(ParamSet { name, value })
}

/// Reads one name with its value or more, up to the `;`.
#[tactic(auto, using(readers::proofs::Choices::loops), unfolding(vlog_exprs::specs::Grammar::list, vlog_exprs::specs::Grammar::commas))]
fn read_param_sets<S: Source>(
    alloc: Global,
    cursor: &mut VCursor,
    source: &mut S,
) -> Result<Seq<ParamSet>, ReadError>
    ensures reads { Reads vlog same (list param_set (mark 59)) result cursor.old cursor.new
        (S.supply source.old) (S.supply source.new) }
    ensures value { IfOk result (AreSome IsParamSet) }
    ensures size { IfOk result (λ sets. length sets + room cursor.new < room cursor.old) }
{
    let mut sets = Seq::empty(alloc);
    let set = read_param_set(alloc, cursor, source)?;
    cursor.add(&mut sets, set)?;
    while cursor.takes(alloc, b',', source)? {
        let set = read_param_set(alloc, cursor, source)?;
        cursor.add(&mut sets, set)?;
    }
    cursor.mark(alloc, b';', source)?;
    Ok(sets)
}

/// Reads on behind `parameter`.
#[tactic(auto, using(readers::proofs::Reading::sequences), unfolding(crate::specs::Grammar::param_item))]
pub(crate) fn read_param_item<S: Source>(
    alloc: Global,
    cursor: &mut VCursor,
    attrs: BoxedList<Attr>,
    source: &mut S,
) -> Result<ParamDecl, ReadError>
    requires { AreAttrs attrs }
    ensures reads { Reads vlog same (param_item attrs) result cursor.old cursor.new
        (S.supply source.old) (S.supply source.new) }
    ensures value { IfOk result IsParamDecl }
    ensures size { IfOk result
        (λ d. param_size d + room cursor.new < room cursor.old + length attrs) }
{
    let kind = read_param_type(alloc, cursor, source)?;
    let sets = read_param_sets(alloc, cursor, source)?;
    Ok(ParamDecl { attrs, kind, sets })
}
