// Attributes.
ghost use Rattle.std.specs.Prelude.{◌≡◌, ◌+◌, ◌<◌, ◌≤◌, length, IfOk, IsFalse};
ghost use Rattle.readers.specs.Readers.{same, room, Reads, ReadsMaybe, TakesNext};
ghost use Rattle.vlog_tokens.specs.Language.{vlog};
ghost use Rattle.vlog_values.specs.Values.{IsConst, IsAttr, AreAttrs};
ghost use Rattle.vlog_exprs.specs.Calls.{stands};
ghost use Rattle.vlog_exprs.specs.Grammar.{group_end, attr_value, attr, group, attrs};
ghost use Rattle.vlog_exprs.specs.Reasons as say;

use crate::constant::read_const;
use crate::cursor::VCursor;
use crate::reasons::{at_group, group_end_of};
use nl_base::{BoxedList, Int, ReadError};
use nl_io::Source;
use std::alloc::Global;
use vlog_tokens::{Plain, VFound};
use vlog_values::{Attr, Const};

/// Takes `(*`, where it is next, and answers whether it was.
fn takes_group<S: Source>(
    alloc: Global,
    cursor: &mut VCursor,
    source: &mut S,
) -> Result<bool, ReadError>
    ensures { TakesNext vlog stands (λ _ x. say.at_group x.token) result cursor.old cursor.new
        (S.supply source.old) (S.supply source.new) }
{
    if let Some(plain) = cursor.held_plain() {
        return match plain {
            Plain::AttrStart => {
                cursor.take_plain();
                Ok(true)
            }
            Plain::AttrStop => Ok(false),
            Plain::Number(_) => Ok(false),
        };
    }
    let held = cursor.held_word();
    let count = held.len();
    if count > 0 {
        return Ok(false);
    }
    if let Some(_mark) = cursor.held_mark() {
        return Ok(false);
    }
    takes_group_token(alloc, cursor, source)
}

/// Looks at any token, and takes it where it is `(*`.
#[inline(never)]
fn takes_group_token<S: Source>(
    alloc: Global,
    cursor: &mut VCursor,
    source: &mut S,
) -> Result<bool, ReadError>
    ensures { TakesNext vlog stands (λ _ x. say.at_group x.token) result cursor.old cursor.new
        (S.supply source.old) (S.supply source.new) }
{
    let next = cursor.next_out(alloc, source)?;
    let Some(VFound { place, stop, token }) = next else {
        return Ok(false);
    };
    let taken = cursor.settled(place, stop, at_group(token))?;
    Ok(taken.is_some())
}

/// Takes `*)`.
fn take_group_end<S: Source>(
    alloc: Global,
    cursor: &mut VCursor,
    source: &mut S,
) -> Result<(), ReadError>
    ensures { Reads vlog same group_end result cursor.old cursor.new
        (S.supply source.old) (S.supply source.new) }
{
    if let Some(plain) = cursor.held_plain() {
        if let Plain::AttrStop = plain {
            cursor.take_plain();
            return Ok(());
        }
    }
    take_group_end_token(alloc, cursor, source)
}

/// Takes any token, which has to be `*)`.
#[inline(never)]
fn take_group_end_token<S: Source>(
    alloc: Global,
    cursor: &mut VCursor,
    source: &mut S,
) -> Result<(), ReadError>
    ensures { Reads vlog same group_end result cursor.old cursor.new
        (S.supply source.old) (S.supply source.new) }
{
    let VFound { place, stop, token } = cursor.take(alloc, source)?;
    let said = group_end_of(alloc, token);
    cursor.judged(place, stop, said)
}

/// Takes this mark, where it is next, and answers whether it was. `*)`, which is next most often, is looked for first.
#[inline(always)]
fn takes_in_group<S: Source>(
    alloc: Global,
    cursor: &mut VCursor,
    mark: u8,
    source: &mut S,
) -> Result<bool, ReadError>
    ensures { TakesNext vlog stands (λ _ x. say.at_mark mark x.token) result cursor.old cursor.new
        (S.supply source.old) (S.supply source.new) }
{
    if let Some(_plain) = cursor.held_plain() {
        return Ok(false);
    }
    cursor.takes(alloc, mark, source)
}

/// Reads the value of an attribute, which is 1 where none stands.
#[inline(always)]
#[tactic(auto, using(readers::proofs::Choices::choices), unfolding(crate::specs::Grammar::attr_value, crate::specs::Grammar::after))]
fn read_attr_value<S: Source>(
    alloc: Global,
    cursor: &mut VCursor,
    source: &mut S,
) -> Result<Const, ReadError>
    ensures reads { ReadsMaybe vlog same attr_value result cursor.old cursor.new
        (S.supply source.old) (S.supply source.new) }
    ensures value { IfOk result IsConst }
{
    if takes_in_group(alloc, cursor, b'=', source)? {
        let value = read_const(alloc, cursor, source)?;
        return Ok(value);
    }
    Ok(Const::Number(Int::signed(false, 1)))
}

#[inline(always)]
#[tactic(auto, using(readers::proofs::Reading::sequences), unfolding(crate::specs::Grammar::attr))]
fn read_attr<S: Source>(
    alloc: Global,
    cursor: &mut VCursor,
    source: &mut S,
) -> Result<Attr, ReadError>
    ensures reads { Reads vlog same attr result cursor.old cursor.new
        (S.supply source.old) (S.supply source.new) }
    ensures value { IfOk result IsAttr }
{
    let name = cursor.name(alloc, source)?;
    let value = read_attr_value(alloc, cursor, source)?;
    Ok(Attr { name, value })
}

/// Reads on behind `(*`, and adds the attributes to others.
#[tactic(auto, using(readers::proofs::Choices::loops), unfolding(crate::specs::Grammar::group, crate::specs::Grammar::commas))]
fn read_group<S: Source>(
    alloc: Global,
    cursor: &mut VCursor,
    mut attrs: BoxedList<Attr>,
    source: &mut S,
) -> Result<BoxedList<Attr>, ReadError>
    requires { AreAttrs attrs }
    ensures reads { Reads vlog same (group attrs) result cursor.old cursor.new
        (S.supply source.old) (S.supply source.new) }
    ensures value { IfOk result AreAttrs }
    ensures size { IfOk result
        (λ all. length all + room cursor.new < length attrs + room cursor.old) }
{
    let attr = read_attr(alloc, cursor, source)?;
    cursor.add_boxed(alloc, &mut attrs, attr)?;
    while takes_in_group(alloc, cursor, b',', source)? {
        let attr = read_attr(alloc, cursor, source)?;
        cursor.add_boxed(alloc, &mut attrs, attr)?;
    }
    take_group_end(alloc, cursor, source)?;
    Ok(attrs)
}

/// Reads attributes, of all groups one after another.
#[tactic(auto, using(readers::proofs::Choices::loops), unfolding(crate::specs::Grammar::groups))]
pub fn read_attrs<S: Source>(
    alloc: Global,
    cursor: &mut VCursor,
    source: &mut S,
) -> Result<BoxedList<Attr>, ReadError>
    ensures reads { ReadsMaybe vlog same attrs result cursor.old cursor.new
        (S.supply source.old) (S.supply source.new) }
    ensures value { IfOk result AreAttrs }
    ensures size { IfOk result (λ attrs. length attrs + room cursor.new ≤ room cursor.old) }
{
    let mut attrs = BoxedList::empty();
    while takes_group(alloc, cursor, source)? {
        attrs = read_group(alloc, cursor, attrs, source)?;
    }
    Ok(attrs)
}
