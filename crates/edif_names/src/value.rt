ghost use Rattle.std.specs.Prelude.{IfOk};
ghost use Rattle.edif_values.specs.Values.{IsPropValue};
ghost use Rattle.readers.specs.Readers.{same, Reads};
ghost use Rattle.edif_keywords.specs.Language.{edif};
ghost use Rattle.edif_names.specs.Grammar.{string_value, integer_value, number_value, boolean_value, value_form, value};

use crate::number::read_scaled;
use edif_keywords::Cursor;
use edif_values::{Keyword, same_keyword};
use nl_base::{PropValue, ReadError};
use nl_io::Source;
use std::alloc::Global;

/// Reads the value of a property: a `string`, an `integer`, a `number` or a `boolean`.
#[tactic(auto, using(readers::proofs::Reading::sequences), unfolding(crate::specs::Grammar::value))]
pub(crate) fn read_value<S: Source>(
    alloc: Global,
    cursor: &mut Cursor,
    source: &mut S,
) -> Result<PropValue, ReadError>
    ensures reads { Reads edif same value result cursor.old cursor.new
        (S.supply source.old) (S.supply source.new) }
    ensures value { IfOk result IsPropValue }
{
    let allowed = [
        Keyword::String,
        Keyword::Integer,
        Keyword::Number,
        Keyword::Boolean,
    ];
    let keyword = cursor.begin(alloc, &allowed, source)?;
    value_form(alloc, cursor, keyword, source)
}

#[tactic(auto, using(crate::proofs::Parts::by_keyword))]
fn value_form<S: Source>(
    alloc: Global,
    cursor: &mut Cursor,
    keyword: Keyword,
    source: &mut S,
) -> Result<PropValue, ReadError>
    ensures reads { Reads edif same (value_form keyword) result cursor.old cursor.new
        (S.supply source.old) (S.supply source.new) }
    ensures value { IfOk result IsPropValue }
{
    if same_keyword(keyword, Keyword::String) {
        return string_value(alloc, cursor, source);
    }
    if same_keyword(keyword, Keyword::Integer) {
        return integer_value(alloc, cursor, source);
    }
    if same_keyword(keyword, Keyword::Number) {
        return number_value(alloc, cursor, source);
    }
    boolean_value(alloc, cursor, source)
}

/// Reads on after the keyword `string`.
#[tactic(auto, using(readers::proofs::Reading::sequences), unfolding(crate::specs::Grammar::string_value))]
fn string_value<S: Source>(
    alloc: Global,
    cursor: &mut Cursor,
    source: &mut S,
) -> Result<PropValue, ReadError>
    ensures reads { Reads edif same string_value result cursor.old cursor.new
        (S.supply source.old) (S.supply source.new) }
    ensures value { IfOk result IsPropValue }
{
    let text = cursor.string(alloc, source)?;
    cursor.finish_form(alloc, source)?;
    Ok(PropValue::Str(text))
}

/// Reads on after the keyword `integer`.
#[tactic(auto, using(readers::proofs::Reading::sequences), unfolding(crate::specs::Grammar::integer_value))]
fn integer_value<S: Source>(
    alloc: Global,
    cursor: &mut Cursor,
    source: &mut S,
) -> Result<PropValue, ReadError>
    ensures reads { Reads edif same integer_value result cursor.old cursor.new
        (S.supply source.old) (S.supply source.new) }
    ensures value { IfOk result IsPropValue }
{
    let number = cursor.int(alloc, source)?;
    cursor.finish_form(alloc, source)?;
    Ok(PropValue::Int(number))
}

/// Reads on after the keyword `number`.
#[tactic(auto, using(readers::proofs::Reading::sequences), unfolding(crate::specs::Grammar::number_value))]
fn number_value<S: Source>(
    alloc: Global,
    cursor: &mut Cursor,
    source: &mut S,
) -> Result<PropValue, ReadError>
    ensures reads { Reads edif same number_value result cursor.old cursor.new
        (S.supply source.old) (S.supply source.new) }
    ensures value { IfOk result IsPropValue }
{
    let number = read_scaled(alloc, cursor, source)?;
    cursor.finish_form(alloc, source)?;
    Ok(PropValue::Scaled(number))
}

/// Reads on after the keyword `boolean`.
#[tactic(auto, using(readers::proofs::Reading::sequences), unfolding(crate::specs::Grammar::boolean_value))]
fn boolean_value<S: Source>(
    alloc: Global,
    cursor: &mut Cursor,
    source: &mut S,
) -> Result<PropValue, ReadError>
    ensures reads { Reads edif same boolean_value result cursor.old cursor.new
        (S.supply source.old) (S.supply source.new) }
    ensures value { IfOk result IsPropValue }
{
    let keyword = cursor.begin(alloc, &[Keyword::True, Keyword::False], source)?;
    cursor.finish_form(alloc, source)?;
    cursor.finish_form(alloc, source)?;
    Ok(PropValue::Flag(same_keyword(keyword, Keyword::True)))
}
