// Booleans that are to be parameters.
ghost use Rattle.std.specs.Prelude.{◌≡◌, find, map, option_copied, option_map, IfOk};
ghost use Rattle.net_bits.specs.Names.{has_name as set_has};
ghost use Rattle.net_live.specs.Last.{seen};
ghost use Rattle.vlog_design.specs.Names.{has_name};
ghost use Rattle.vlog_design.specs.Rules.{first_of};
ghost use Rattle.to_verilog_rules.specs.Found.{flag_names, flagged_names, is_flag};
ghost use Rattle.to_verilog_rules.specs.Rules.{boolean_params, boolean_params_of};

use net_bits::Names;
use net_hier::{HInst, HProp};
use net_live::last_of;
use nl_base::{NoMemory, PropValue};
use std::alloc::Global;
use vlog_design::names::NameSet;
use vlog_rules::lists::name_set;

/// An instance and the name of one of its properties.
#[derive(Clone, Copy)]
pub struct Flagged<'a> {
    pub instance: &'a [u8],
    pub property: &'a [u8],
}

/// Whether the property has the name of a parameter, and a boolean as its value.
fn is_flag(prop: &HProp, params: &Names) -> bool
    ensures { result ≡ is_flag (set_has params.now) prop.now }
{
    match prop.value {
        PropValue::Flag(_) => params.has(prop.name.bytes()),
        PropValue::Str(_) => false,
        PropValue::Int(_) => false,
        PropValue::Scaled(_) => false,
    }
}

/// The names of those among the properties.
fn flags_named<'a>(
    alloc: Global,
    props: &[&'a HProp],
    params: &Names,
) -> Result<Vec<&'a [u8]>, NoMemory>
    ensures { IfOk result (λ names. map (λ name. name.now) names.items
        ≡ flagged_names (set_has params.now) (seen props.now)) }
{
    let mut names = Vec::new(alloc);
    for prop in props {
        if is_flag(*prop, params) {
            names.push(prop.name.bytes())?;
        }
    }
    Ok(names)
}

/// The first property whose name is one of these.
fn prop_named<'a>(props: &'a [HProp], names: &NameSet) -> Option<&'a [u8]>
    ensures { option_copied result ≡ find (has_name names.now) (map (λ prop. prop.name) props.now) }
{
    for prop in props {
        if names.has(prop.name.bytes()) {
            return Some(prop.name.bytes());
        }
    }
    None
}

/// The first property that is to be a parameter and has a boolean as its last value.
fn flag_among<'a>(
    alloc: Global,
    props: &'a [HProp],
    params: &Names,
) -> Result<Option<&'a [u8]>, NoMemory>
    ensures { IfOk result (λ found. option_copied found
        ≡ first_of (boolean_params (set_has params.now) props.now)) }
{
    let last = last_of(alloc, props)?;
    let names = flags_named(alloc, last.as_slice(), params)?;
    let set = name_set(alloc, &names)?;
    let found = prop_named(props, &set);
    Ok(found)
}

/// That of an instance.
pub fn flag_of<'a>(
    alloc: Global,
    instance: &'a HInst,
    params: &Names,
) -> Result<Option<Flagged<'a>>, NoMemory>
    ensures { IfOk result (λ found. option_map flag_names found
        ≡ first_of (boolean_params_of (set_has params.now) instance.now)) }
{
    let found = flag_among(alloc, instance.props.items(), params)?;
    match found {
        None => Ok(None),
        Some(property) => Ok(Some(Flagged {
            instance: instance.name.bytes(),
            property,
        })),
    }
}
