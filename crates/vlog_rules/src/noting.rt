// The first declaration of a module that clashes with one before it. Only names that may be those of two declarations go to a table.
// The declarations are walked over twice: a list of all of them would take more memory than the text.
ghost use Rattle.std.specs.Prelude.{◌≡◌, ℕ, ◌++◌, [], flat_map, option_copied, option_map, IfOk, List, OnOk};
ghost use Rattle.digests.specs.Sets.{AreNoted};
ghost use Rattle.vlog_design.specs.Names.{clashing, declarations, declared_in_item};
ghost use Rattle.vlog_design.specs.Rules.{clash, first_of};
ghost use Rattle.vlog_rules.specs.NameDigests.{digests_of, met_again};
ghost use Rattle.vlog_rules.specs.Seen.{declaration_of, declarations_of};

use crate::counts::count_names;
use crate::declared::{push_header, push_item, push_params};
use crate::kinds::Met;
use crate::name_digests::digest_of;
use digests::Digests;
use nl_base::NoMemory;
use std::alloc::Global;
use vlog_design::signals::Kind;
use vlog_values::{ItemV, Module};

/// Notes the digest of the name of each declaration.
fn note_all(digests: &mut Digests, declarations: &[(Kind, &[u8])])
    ensures { (noted : List ℕ) → AreNoted digests.old noted
        → AreNoted digests.new (noted ++ digests_of (declarations_of declarations.now)) }
{
    for declaration in declarations {
        digests.note(digest_of(declaration.1));
    }
}

/// Notes the digests of the names that the items declare. The list `near` is made anew for each item, and its room is used again.
fn note_items<'a>(
    digests: &mut Digests,
    items: &'a [ItemV],
    near: &mut Vec<(Kind, &'a [u8])>,
) -> Result<(), NoMemory>
    ensures { OnOk result ((noted : List ℕ) → AreNoted digests.old noted
        → AreNoted digests.new (noted ++ digests_of (flat_map declared_in_item items.now))) }
{
    for item in items {
        near.clear();
        push_item(item, near)?;
        note_all(digests, near);
    }
    Ok(())
}

/// The digests of all names that the module declares: the first walk over its declarations.
#[tactic(auto, unfolding(vlog_design::specs::Names::declarations))]
fn noted(alloc: Global, m: &Module) -> Result<Digests, NoMemory>
    ensures { IfOk result (λ digests. AreNoted digests (digests_of (declarations m.now))) }
{
    let mut digests = Digests::with_room(alloc, count_names(m))?;
    let mut near = Vec::new(alloc);
    push_params(m.params.items(), &mut near)?;
    push_header(&m.header, &mut near)?;
    note_all(&mut digests, &near);
    note_items(&mut digests, m.items.items(), &mut near)?;
    Ok(digests)
}

/// Adds those of the declarations whose names were met again, by their digests.
fn keep_all<'a>(
    digests: &Digests,
    declarations: &[(Kind, &'a [u8])],
    found: &mut Vec<(Kind, &'a [u8])>,
) -> Result<(), NoMemory>
    ensures { OnOk result (declarations_of found.new.items ≡ declarations_of found.old.items
        ++ met_again digests.now (declarations_of declarations.now)) }
{
    for declaration in declarations {
        if digests.is_again(digest_of(declaration.1)) {
            found.push(*declaration)?;
        }
    }
    Ok(())
}

/// Adds those of the declarations in the items whose names were met again. The list `near` is used as in the first walk.
fn keep_items<'a>(
    digests: &Digests,
    items: &'a [ItemV],
    near: &mut Vec<(Kind, &'a [u8])>,
    found: &mut Vec<(Kind, &'a [u8])>,
) -> Result<(), NoMemory>
    ensures { OnOk result (declarations_of found.new.items ≡ declarations_of found.old.items
        ++ met_again digests.now (flat_map declared_in_item items.now)) }
{
    for item in items {
        near.clear();
        push_item(item, near)?;
        keep_all(digests, near, found)?;
    }
    Ok(())
}

/// The declarations whose names were met again, in the order of the text: the second walk over the declarations of the module.
#[tactic(auto, unfolding(vlog_design::specs::Names::declarations))]
fn kept<'a>(
    alloc: Global,
    digests: &Digests,
    m: &'a Module,
) -> Result<Vec<(Kind, &'a [u8])>, NoMemory>
    ensures { IfOk result (λ found. declarations_of found.items
        ≡ met_again digests.now (declarations m.now)) }
{
    let mut near = Vec::new(alloc);
    let mut found = Vec::new(alloc);
    push_params(m.params.items(), &mut near)?;
    push_header(&m.header, &mut near)?;
    keep_all(digests, &near, &mut found)?;
    keep_items(digests, m.items.items(), &mut near, &mut found)?;
    Ok(found)
}

/// The first of the declarations that clashes with one before it.
fn first_in_table<'a>(
    alloc: Global,
    declarations: &[(Kind, &'a [u8])],
) -> Result<Option<(Kind, &'a [u8])>, NoMemory>
    ensures { IfOk result (λ found. option_map declaration_of found
        ≡ first_of (clashing clash [] (declarations_of declarations.now))) }
{
    let mut met = Met::empty(alloc);
    for declaration in declarations {
        let (kind, name) = *declaration;
        let clashes = met.note(kind, name)?;
        if clashes {
            return Ok(Some(*declaration));
        }
    }
    Ok(None)
}

/// The declarations of names that may be declared before, in the order of the text: the others clash with none.
fn suspected<'a>(alloc: Global, m: &'a Module) -> Result<Vec<(Kind, &'a [u8])>, NoMemory>
    ensures { IfOk result (λ found. clashing clash [] (declarations_of found.items)
        ≡ clashing clash [] (declarations m.now)) }
{
    let digests = noted(alloc, m)?;
    let found = kept(alloc, &digests, m)?;
    Ok(found)
}

/// The name of the first declaration of the module that clashes with one before it.
pub fn first_clash<'a>(alloc: Global, m: &'a Module) -> Result<Option<&'a [u8]>, NoMemory>
    ensures { IfOk result (λ found. option_copied found
        ≡ option_map (λ declaration. declaration.name)
        (first_of (clashing clash [] (declarations m.now)))) }
{
    let declarations = suspected(alloc, m)?;
    match first_in_table(alloc, &declarations)? {
        None => Ok(None),
        Some(declaration) => Ok(Some(declaration.1)),
    }
}
