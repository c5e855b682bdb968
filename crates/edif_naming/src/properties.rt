// Properties.
ghost use Rattle.std.specs.Prelude.{◌≡◌, true, map, length, IfOk};
ghost use Rattle.std.specs.List.{AllByRecursion};
ghost use Rattle.edif_values.specs.Values.{IsProperty};
ghost use Rattle.edif_written.specs.Naming.{ident_of, property_for, seen, value_of};
ghost use Rattle.edif_spaces.specs.Spaces.{AreIdents};
ghost use Rattle.edif_written.specs.Sound.{AreSoundProps, IsSoundProp};

use crate::names::{copied, name_told};
use edif_spaces::idents_of;
use edif_values::Property;
use net_hier::HProp;
use nl_base::{BoxedList, Ident, NoMemory, PropValue, Seq, Text};
use std::alloc::Global;

/// A value like this one.
pub(crate) fn copy_value(alloc: Global, value: &PropValue) -> Result<PropValue, NoMemory>
    ensures { IfOk result (λ made. made ≡ value.now) }
{
    match value {
        PropValue::Str(text) => {
            let text = Text::copy(alloc, text.bytes())?;
            Ok(PropValue::Str(text))
        }
        PropValue::Int(int) => Ok(PropValue::Int(*int)),
        PropValue::Flag(flag) => Ok(PropValue::Flag(*flag)),
        PropValue::Scaled(scaled) => Ok(PropValue::Scaled(*scaled)),
    }
}

/// The property with this identifier; it is told whether that is its name.
#[inline(always)]
#[tactic(auto, using(crate::proofs::SoundLaws::made_sound))]
pub(crate) fn property_by(
    alloc: Global,
    is_own: bool,
    ident: Ident,
    prop: &HProp,
) -> Result<Property, NoMemory>
    requires { is_own ≡ true → ident ≡ prop.now.name }
    ensures property { IfOk result (λ made. made ≡ property_for ident prop.now) }
    ensures sound { IsSoundProp prop.now → IfOk result IsProperty }
{
    let name = name_told(alloc, is_own, ident, prop.name.bytes())?;
    let value = copy_value(alloc, &prop.value)?;
    Ok(Property {
        name,
        value,
        tail: BoxedList::empty(),
    })
}

/// The property with this identifier.
fn property_of(alloc: Global, ident: &Ident, prop: &HProp) -> Result<Property, NoMemory>
    ensures property { IfOk result (λ made. made ≡ property_for ident.now prop.now) }
    ensures sound { IsSoundProp prop.now → IfOk result IsProperty }
{
    let own = copied(alloc, ident)?;
    let made = property_by(alloc, false, own, prop)?;
    Ok(made)
}

/// The names of properties.
fn names_of<'a>(alloc: Global, props: &[&'a HProp]) -> Result<Vec<&'a [u8]>, NoMemory>
    ensures { IfOk result (λ names. seen names.items ≡ map (λ prop. prop.name) (seen props.now)) }
{
    let mut names = Vec::with_capacity(alloc, props.len())?;
    for prop in props {
        names.push(prop.name.bytes())?;
    }
    Ok(names)
}

/// The identifiers of properties, a name space of their own.
fn property_idents(alloc: Global, props: &[&HProp]) -> Result<Seq<Ident>, NoMemory>
    ensures count { IfOk result (λ idents. length idents ≡ length props.now) }
    ensures idents { IfOk result (AreIdents (map (λ prop. prop.name) (seen props.now))) }
{
    let names = names_of(alloc, props)?;
    let idents = idents_of(alloc, names.as_slice())?;
    Ok(idents)
}

/// The properties of one object, whose identifiers are a name space of their own.
pub fn properties_of(alloc: Global, props: &[&HProp]) -> Result<Vec<Property>, NoMemory>
    ensures values { IfOk result (λ made. map value_of made.items ≡ seen props.now) }
    ensures sound { AreSoundProps (seen props.now)
        → IfOk result (λ made. AllByRecursion IsProperty made.items) }
    ensures idents { IfOk result
        (λ made. AreIdents (map (λ prop. prop.name) (seen props.now)) (map ident_of made.items)) }
{
    let idents = property_idents(alloc, props)?;
    let words = idents.items();
    let mut made = Vec::with_capacity(alloc, props.len())?;
    for place in 0..props.len() {
        let property = property_of(alloc, &words[place], props[place])?;
        made.push(property)?;
    }
    Ok(made)
}
