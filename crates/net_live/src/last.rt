// The last value of each name.
ghost use Rattle.std.specs.Prelude.{◌≡◌, ◌++◌, ◌∷◌, [], cond, reverse, IfOk, OnOk};
ghost use Rattle.net_bits.specs.Names.{has_name, with_name};
ghost use Rattle.net_live.specs.Last.{is_named as is_named_in, last_of as last_values_of, seen};

use net_bits::Names;
use net_hier::HProp;
use nl_base::NoMemory;
use std::alloc::Global;

/// Up to so many properties are looked through one by one, and more of them by a table of their names.
const FEW: usize = 8;

/// Whether one of the properties has this name.
fn is_named(name: &[u8], props: &[&HProp]) -> bool
    ensures { result ≡ is_named_in name.now (seen props.now) }
{
    for prop in props {
        if name == prop.name.bytes() {
            return true;
        }
    }
    false
}

/// Adds the property, where none of these later ones has its name.
fn add_last<'a>(
    kept: &mut Vec<&'a HProp>,
    prop: &'a HProp,
    later: &[&HProp],
) -> Result<(), NoMemory>
    ensures { OnOk result (seen kept.new.items
        ≡ seen kept.old.items ++ cond (is_named_in prop.now.name (seen later.now)) [] (prop.now ∷ [])) }
{
    if is_named(prop.name.bytes(), later) {
        return Ok(());
    }
    kept.push(prop)?;
    Ok(())
}

/// The properties that no later one of the same name follows, each looked for among the later ones.
fn few_last_values<'a>(alloc: Global, props: &[&'a HProp]) -> Result<Vec<&'a HProp>, NoMemory>
    ensures { IfOk result (λ kept. seen kept.items ≡ last_values_of (seen props.now)) }
{
    let mut kept = Vec::with_capacity(alloc, props.len())?;
    for place in 0..props.len() {
        add_last(&mut kept, props[place], &props[place + 1..])?;
    }
    Ok(kept)
}

/// Adds the property, where none of its name is there.
fn add_new<'a>(
    alloc: Global,
    names: &mut Names,
    kept: &mut Vec<&'a HProp>,
    prop: &'a HProp,
) -> Result<(), NoMemory>
    ensures names { OnOk result (names.new ≡ with_name names.old prop.now.name) }
    ensures kept { OnOk result (seen kept.new.items
        ≡ cond (has_name names.old prop.now.name) (seen kept.old.items)
        (seen kept.old.items ++ prop.now ∷ [])) }
{
    if !names.add(alloc, prop.name.bytes())? {
        return Ok(());
    }
    kept.push(prop)?;
    Ok(())
}

/// The properties that no later one of the same name follows, the last one first.
fn last_values_back<'a>(alloc: Global, props: &[&'a HProp]) -> Result<Vec<&'a HProp>, NoMemory>
    ensures { IfOk result (λ kept. reverse (seen kept.items) ≡ last_values_of (seen props.now)) }
{
    let mut names = Names::new(alloc, false);
    let mut kept = Vec::new(alloc);
    let mut end = props.len();
    while end > 0 {
        end -= 1;
        add_new(alloc, &mut names, &mut kept, props[end])?;
    }
    Ok(kept)
}

/// The properties that no later one of the same name follows, found by a table of the names.
fn many_last_values<'a>(alloc: Global, props: &[&'a HProp]) -> Result<Vec<&'a HProp>, NoMemory>
    ensures { IfOk result (λ kept. seen kept.items ≡ last_values_of (seen props.now)) }
{
    let mut kept = last_values_back(alloc, props)?;
    kept.reverse();
    Ok(kept)
}

/// The properties that no later one of the same name follows, in their order.
pub fn last_values<'a>(alloc: Global, props: &[&'a HProp]) -> Result<Vec<&'a HProp>, NoMemory>
    ensures { IfOk result (λ kept. seen kept.items ≡ last_values_of (seen props.now)) }
{
    if props.len() <= FEW {
        return few_last_values(alloc, props);
    }
    many_last_values(alloc, props)
}

/// Those of the properties that no later one of the same name follows, in their order.
#[tactic(auto, using(crate::proofs::LastLaws::one_is_last))]
pub fn kept_last<'a>(alloc: Global, found: Vec<&'a HProp>) -> Result<Vec<&'a HProp>, NoMemory>
    ensures { IfOk result (λ kept. seen kept.items ≡ last_values_of (seen found.entry.items)) }
{
    if found.len() <= 1 {
        return Ok(found);
    }
    last_values(alloc, found.as_slice())
}

/// Adds the properties of a list.
pub fn add_props<'a>(props: &'a [HProp], found: &mut Vec<&'a HProp>) -> Result<(), NoMemory>
    ensures { OnOk result (seen found.new.items ≡ seen found.old.items ++ props.now) }
{
    for prop in props {
        found.push(prop)?;
    }
    Ok(())
}

/// The last property of each name in a list.
pub fn last_of<'a>(alloc: Global, props: &'a [HProp]) -> Result<Vec<&'a HProp>, NoMemory>
    ensures { IfOk result (λ kept. seen kept.items ≡ last_values_of props.now) }
{
    let mut found = Vec::with_capacity(alloc, props.len())?;
    add_props(props, &mut found)?;
    kept_last(alloc, found)
}
