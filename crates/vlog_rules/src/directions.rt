// Directions of ports.
ghost use Rattle.std.specs.Prelude.{◌≡◌, ◌++◌, filter, map, not, option_copied, IfOk};
ghost use Rattle.nl_base.specs.declared.rule.Rule.TheVariants.{G5};
ghost use Rattle.vlog_design.specs.Names.{has_name};
ghost use Rattle.vlog_design.specs.Rules.{bad_directions, first_of, refused, without_direction};
ghost use Rattle.vlog_design.specs.Tables.{names_of};

use crate::lists::{first_outside, inner_directions, push_texts};
use crate::refusals::refuse;
use nl_base::{NoMemory, Refusal, Rule};
use std::alloc::Global;
use vlog_values::{Header, Module};

/// The first listed port without a direction, or else the first direction of no listed port.
fn first_unlike<'a>(
    alloc: Global,
    listed: &[&'a [u8]],
    inner: &[&'a [u8]],
) -> Result<Option<&'a [u8]>, NoMemory>
    ensures { IfOk result (λ found. option_copied found
        ≡ first_of (filter (λ name. not (has_name (names_of inner.now) name)) (names_of listed.now)
        ++ filter (λ name. not (has_name (names_of listed.now) name)) (names_of inner.now))) }
{
    if let Some(name) = first_outside(alloc, listed, inner)? {
        return Ok(Some(name));
    }
    let found = first_outside(alloc, inner, listed)?;
    Ok(found)
}

fn first_name<'a>(names: &[&'a [u8]]) -> Option<&'a [u8]>
    ensures { option_copied result ≡ first_of (names_of names.now) }
{
    match names {
        [] => None,
        [name, ..] => Some(*name),
    }
}

fn bad_direction<'a>(alloc: Global, m: &'a Module) -> Result<Option<&'a [u8]>, NoMemory>
    ensures { IfOk result (λ found. option_copied found
        ≡ first_of (bad_directions m.now m.now.header)) }
{
    let inner = inner_directions(alloc, m)?;
    match &m.header {
        Header::Decls(_) => Ok(first_name(&inner)),
        Header::Names(names) => {
            let mut listed = Vec::new(alloc);
            push_texts(names.items(), &mut listed)?;
            let found = first_unlike(alloc, &listed, &inner)?;
            Ok(found)
        }
    }
}

/// The first name of the module that has no direction or has a direction where it may not.
pub fn without_direction(alloc: Global, m: &Module) -> Result<Option<Refusal>, NoMemory>
    ensures { IfOk result (λ found. found
        ≡ first_of (map (refused G5 m.now.name) (without_direction m.now))) }
{
    let found = bad_direction(alloc, m)?;
    match found {
        None => Ok(None),
        Some(name) => Ok(Some(refuse(alloc, Rule::G5, m.name.bytes(), name)?)),
    }
}
