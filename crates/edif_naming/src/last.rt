// The last property of each name of an object.
ghost use Rattle.std.specs.Prelude.{◌≡◌, ◌+◌, ◌≤◌, ◌<◌, ◌^◌, ◌++◌, ◌∷◌, [], false, cond, length, map, IfOk, OnOk};
ghost use Rattle.std.specs.List.{AllByRecursion, list_any};
ghost use Rattle.edif_meanings.specs.Apart.{is_alike_any};
ghost use Rattle.edif_naming.specs.Few.{ArePlain};
ghost use Rattle.edif_written.specs.Naming.{ident_of, value_of};
ghost use Rattle.edif_written.specs.Sound.{AreSoundProps, IsSoundProp};
ghost use Rattle.edif_spaces.specs.Plain.{has_stem as has_stem_text, is_own_behind};
ghost use Rattle.edif_spaces.specs.Spaces.{AreIdents};
ghost use Rattle.edif_values.specs.Values.{IsProperty};
ghost use Rattle.net_live.specs.Last.{is_named as is_named_in, last_of as last_values_of};

use crate::properties::{properties_of, property_by};
use edif_spaces::{can_be_own, has_stem, plain_ident};
use edif_values::Property;
use net_hier::HProp;
use net_live::last_of;
use nl_base::{NoMemory, fold_eq};
use std::alloc::Global;

/// Up to so many properties are looked through one by one.
const FEW: usize = 8;

/// Whether one of the properties has this name.
fn is_named(name: &[u8], props: &[HProp]) -> bool
    ensures { result ≡ is_named_in name.now props.now }
{
    for prop in props {
        if name == prop.name.bytes() {
            return true;
        }
    }
    false
}

/// Whether the name of one of the properties begins with the stem, up to case.
fn have_stem(props: &[HProp]) -> bool
    ensures { result ≡ list_any (λ prop. has_stem_text prop.name) props.now }
{
    for prop in props {
        if has_stem(prop.name.bytes()) {
            return true;
        }
    }
    false
}

/// Whether one of the properties has an identifier that is alike the name up to case.
fn is_taken(name: &[u8], made: &[Property]) -> bool
    ensures { result ≡ is_alike_any name.now (map ident_of made.now) }
{
    for property in made {
        if fold_eq(name, property.name.ident.bytes()) {
            return true;
        }
    }
    false
}

/// Whether the name is its own identifier behind those of these properties.
fn is_own(name: &[u8], made: &[Property]) -> bool
    ensures { result ≡ is_own_behind (map ident_of made.now) name.now }
{
    can_be_own(name) && !is_taken(name, made)
}

/// Adds the property under the identifier of its name, and answers the least number that is free then.
fn add_property(
    alloc: Global,
    made: &mut Vec<Property>,
    from: u64,
    prop: &HProp,
) -> Result<u64, NoMemory>
    requires stem { has_stem_text prop.now.name ≡ false }
    requires few { from < 2 ^ 32 }
    requires plain { ArePlain made.old.items from }
    ensures value { OnOk result (map value_of made.new.items
        ≡ map value_of made.old.items ++ prop.now ∷ []) }
    ensures plain { IfOk result (ArePlain made.new.items) }
    ensures step { IfOk result (λ next. next ≤ from + 1) }
    ensures sound { IsSoundProp prop.now → AllByRecursion IsProperty made.old.items
        → OnOk result (AllByRecursion IsProperty made.new.items) }
{
    let name = prop.name.bytes();
    let is_own = is_own(name, made.as_slice());
    let (ident, next) = plain_ident(alloc, is_own, from, name)?;
    let property = property_by(alloc, is_own, ident, prop)?;
    made.push(property)?;
    Ok(next)
}

/// Adds the property, where none of these later ones has its name.
fn add_last(
    alloc: Global,
    made: &mut Vec<Property>,
    from: u64,
    prop: &HProp,
    later: &[HProp],
) -> Result<u64, NoMemory>
    requires stem { has_stem_text prop.now.name ≡ false }
    requires few { from < 2 ^ 32 }
    requires plain { ArePlain made.old.items from }
    ensures value { OnOk result (map value_of made.new.items
        ≡ map value_of made.old.items ++ cond (is_named_in prop.now.name later.now) [] (prop.now ∷ [])) }
    ensures plain { IfOk result (ArePlain made.new.items) }
    ensures step { IfOk result (λ next. next ≤ from + 1) }
    ensures sound { IsSoundProp prop.now → AllByRecursion IsProperty made.old.items
        → OnOk result (AllByRecursion IsProperty made.new.items) }
{
    if is_named(prop.name.bytes(), later) {
        return Ok(from);
    }
    add_property(alloc, made, from, prop)
}

/// The last of each name of few properties, of which no name begins with the stem.
fn few_properties(alloc: Global, props: &[HProp]) -> Result<Vec<Property>, NoMemory>
    requires stem { list_any (λ prop. has_stem_text prop.name) props.now ≡ false }
    requires few { length props.now ≤ 8 }
    ensures values { IfOk result (λ made. map value_of made.items ≡ last_values_of props.now) }
    ensures sound { AreSoundProps props.now
        → IfOk result (λ made. AllByRecursion IsProperty made.items) }
    ensures idents { IfOk result
        (λ made. AreIdents (map (λ prop. prop.name) (last_values_of props.now))
        (map ident_of made.items)) }
{
    let mut made = Vec::with_capacity(alloc, props.len())?;
    let mut from = 0;
    for place in 0..props.len() {
        from = add_last(alloc, &mut made, from, &props[place], &props[place + 1..])?;
    }
    Ok(made)
}

/// The last of each name of properties.
#[tactic(auto, using(crate::proofs::LastLaws::seen_sound))]
fn many_properties(alloc: Global, props: &[HProp]) -> Result<Vec<Property>, NoMemory>
    ensures values { IfOk result (λ made. map value_of made.items ≡ last_values_of props.now) }
    ensures sound { AreSoundProps props.now
        → IfOk result (λ made. AllByRecursion IsProperty made.items) }
    ensures idents { IfOk result
        (λ made. AreIdents (map (λ prop. prop.name) (last_values_of props.now))
        (map ident_of made.items)) }
{
    let kept = last_of(alloc, props)?;
    let made = properties_of(alloc, kept.as_slice())?;
    Ok(made)
}

/// The last of each name of the properties of one object, whose identifiers are a name space of their own.
pub fn last_properties(alloc: Global, props: &[HProp]) -> Result<Vec<Property>, NoMemory>
    ensures values { IfOk result (λ made. map value_of made.items ≡ last_values_of props.now) }
    ensures sound { AreSoundProps props.now
        → IfOk result (λ made. AllByRecursion IsProperty made.items) }
    ensures idents { IfOk result
        (λ made. AreIdents (map (λ prop. prop.name) (last_values_of props.now))
        (map ident_of made.items)) }
{
    if props.len() <= FEW && !have_stem(props) {
        return few_properties(alloc, props);
    }
    many_properties(alloc, props)
}
