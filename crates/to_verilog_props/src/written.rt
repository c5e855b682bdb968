// Attributes and parameters, made of properties.
ghost use Rattle.std.specs.Prelude.{◌≡◌, ◌++◌, ◌∷◌, [], map, filter, not, IfOk, OnOk};
ghost use Rattle.net_live.specs.Last.{last_of as last_props, seen};
ghost use Rattle.to_verilog_props.specs.Written.{attr_of, attrs_of, given_attrs, given_params, is_param, param_of};

use crate::constants::{attr_const, param_const};
use net_bits::Names;
use net_hier::HProp;
use net_live::{last_of, last_values};
use nl_base::{BoxedList, NoMemory, Text};
use std::alloc::Global;
use vlog_values::{Attr, ParamSet};

/// What is written of the properties of an instance.
#[derive(Drop)]
pub struct Given {
    pub attrs: BoxedList<Attr>,
    pub params: BoxedList<ParamSet>,
}

/// The attribute that a property is.
fn attr_of(alloc: Global, prop: &HProp) -> Result<Attr, NoMemory>
    ensures { IfOk result (λ made. made ≡ attr_of prop.now) }
{
    let name = Text::copy(alloc, prop.name.bytes())?;
    let value = attr_const(alloc, &prop.value)?;
    Ok(Attr { name, value })
}

/// The value of a parameter that a property is.
fn param_of(alloc: Global, prop: &HProp) -> Result<ParamSet, NoMemory>
    ensures { IfOk result (λ made. made ≡ param_of prop.now) }
{
    let name = Text::copy(alloc, prop.name.bytes())?;
    let value = param_const(alloc, &prop.value)?;
    Ok(ParamSet { name, value })
}

/// The attributes that properties are.
fn attrs_from(alloc: Global, props: &[&HProp]) -> Result<BoxedList<Attr>, NoMemory>
    ensures { IfOk result (λ made. made ≡ map attr_of (seen props.now)) }
{
    let mut attrs = BoxedList::empty();
    for prop in props {
        let attr = attr_of(alloc, *prop)?;
        attrs.push(alloc, attr)?;
    }
    Ok(attrs)
}

/// The attributes of properties that were gathered: the last one of each name.
pub fn attrs_of(alloc: Global, gathered: &[&HProp]) -> Result<BoxedList<Attr>, NoMemory>
    ensures { IfOk result (λ made. made ≡ attrs_of (seen gathered.now)) }
{
    let kept = last_values(alloc, gathered)?;
    let attrs = attrs_from(alloc, kept.as_slice())?;
    Ok(attrs)
}

/// The attributes of properties: the last one of each name.
pub fn attrs_of_list(alloc: Global, props: &[HProp]) -> Result<BoxedList<Attr>, NoMemory>
    ensures { IfOk result (λ made. made ≡ attrs_of props.now) }
{
    let kept = last_of(alloc, props)?;
    let attrs = attrs_from(alloc, kept.as_slice())?;
    Ok(attrs)
}

/// Adds what is written of a property: a parameter where its name is one of these, else an attribute.
fn give(alloc: Global, prop: &HProp, params: &Names, given: &mut Given) -> Result<(), NoMemory>
    ensures attrs { OnOk result (given.new.attrs
        ≡ given.old.attrs ++ given_attrs params.now (prop.now ∷ [])) }
    ensures params { OnOk result (given.new.params
        ≡ given.old.params ++ given_params params.now (prop.now ∷ [])) }
{
    if params.has(prop.name.bytes()) {
        let set = param_of(alloc, prop)?;
        given.params.push(alloc, set)?;
        return Ok(());
    }
    let attr = attr_of(alloc, prop)?;
    given.attrs.push(alloc, attr)?;
    Ok(())
}

/// What is written of properties, each of another name.
fn given_from(alloc: Global, props: &[&HProp], params: &Names) -> Result<Given, NoMemory>
    ensures attrs { IfOk result (λ given. given.attrs ≡ given_attrs params.now (seen props.now)) }
    ensures params { IfOk result
        (λ given. given.params ≡ given_params params.now (seen props.now)) }
{
    let mut given = Given {
        attrs: BoxedList::empty(),
        params: BoxedList::empty(),
    };
    for prop in props {
        give(alloc, *prop, params, &mut given)?;
    }
    Ok(given)
}

/// What is written of the properties of an instance: the last one of each name, as a parameter where its name is one of these.
pub fn given_of(alloc: Global, props: &[HProp], params: &Names) -> Result<Given, NoMemory>
    ensures attrs { IfOk result
        (λ given. given.attrs ≡ given_attrs params.now (last_props props.now)) }
    ensures params { IfOk result
        (λ given. given.params ≡ given_params params.now (last_props props.now)) }
{
    let kept = last_of(alloc, props)?;
    let given = given_from(alloc, kept.as_slice(), params)?;
    Ok(given)
}
