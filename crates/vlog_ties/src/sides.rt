// What the rules on the two sides of connections and assignments say of modules.
ghost use Rattle.std.specs.Prelude.{None, All, ◌≡◌, ◌≤◌, ◌∷◌, ◌+◌, ◌-◌, ◌^◌, ◌||◌, [], false, min, map, IfOk};
ghost use Rattle.std.specs.List.{AllByRecursion};
ghost use Rattle.std.specs.Option.{option_or};
ghost use Rattle.vlog_values.specs.Sizes.{module_size};
ghost use Rattle.vlog_values.specs.Values.{IsModule};
ghost use Rattle.vlog_ties.specs.Sides.{AreSides, AreTieSides};
ghost use Rattle.vlog_ties.specs.Ties.{HasNarrowLeft, all_tied, modules_in, tied};

use crate::counts::most_joins;
use crate::rules::{TieRule, first_refusal};
use crate::tie::Tie;
use crate::ties::{instance_count, push_item_ties};
use nl_base::{NoMemory, Refusal};
use std::alloc::Global;
use vlog_design::names::NameSet;
use vlog_rules::passes::ModuleScope;
use vlog_rules::wrong_uses::has_wrong_use_in;

/// What the two sides of connections and assignments of modules break, and at most how many joins the modules have.
#[derive(Drop)]
pub struct Sides {
    /// The first connection or assignment whose two sides have two widths.
    pub unequal: Option<Refusal>,
    /// The first connection or assignment with an unsized literal.
    pub loose: Option<Refusal>,
    /// The bits of all left sides and supply nets, or 2^64-1 where there are more: there are no more joins.
    pub most: u64,
    /// Whether some name in an expression is no port and no net, or some select means no bits.
    pub wrong: bool,
}

/// The sides of no ties and of no modules.
fn no_sides() -> Sides
    ensures unequal { result.unequal ≡ None }
    ensures loose { result.loose ≡ None }
    ensures most { result.most ≡ 0 }
    ensures wrong { result.wrong ≡ false }
{
    Sides {
        unequal: None,
        loose: None,
        most: 0,
        wrong: false,
    }
}

/// The sides of these ties of the module of a scope, of an item with a wrong use or without.
fn sides_of_ties(
    alloc: Global,
    scope: &ModuleScope,
    near: &mut usize,
    ties: &[Tie],
    wrong: bool,
) -> Result<Sides, NoMemory>
    requires { All (λ tie. HasNarrowLeft scope.now.table (tied tie)) ties.now }
    ensures sides { IfOk result
        (AreTieSides scope.now.module.now scope.now.table (all_tied ties.now)) }
    ensures wrong { IfOk result (λ sides. sides.wrong ≡ wrong) }
{
    // Most items without a tie are declarations.
    if ties.is_empty() {
        let sides = no_sides();
        return Ok(Sides { wrong, ..sides });
    }
    let unequal = first_refusal(alloc, TieRule::EqualWidths, scope, near, ties)?;
    let loose = first_refusal(alloc, TieRule::SizedLiterals, scope, near, ties)?;
    let most = most_joins(&scope.table, ties);
    Ok(Sides {
        unequal,
        loose,
        most,
        wrong,
    })
}

/// The sides of ties or modules, by those of the ones in front and those of the others.
fn joined(front: Sides, back: Sides) -> Sides
    ensures unequal { result.unequal ≡ option_or front.unequal back.unequal }
    ensures loose { result.loose ≡ option_or front.loose back.loose }
    ensures most { result.most ≡ min (front.most + back.most) (2 ^ 64 - 1) }
    ensures wrong { result.wrong ≡ (front.wrong || back.wrong) }
{
    let Sides {
        unequal: front_unequal,
        loose: front_loose,
        most: front_most,
        wrong: front_wrong,
    } = front;
    let Sides {
        unequal,
        loose,
        most,
        wrong,
    } = back;
    Sides {
        unequal: front_unequal.or(unequal),
        loose: front_loose.or(loose),
        most: front_most.saturating_add(most),
        wrong: front_wrong || wrong,
    }
}

/// The sides of the module of a scope, where `scopes` are the modules below it and `names` their names. Item by item, so that each name
/// is looked up again at once; no list of all its ties is made.
pub fn sides_in_scope<'a>(
    alloc: Global,
    names: &NameSet,
    scopes: &[ModuleScope<'a>],
    scope: &ModuleScope<'a>,
) -> Result<Sides, NoMemory>
    requires named { names.now ≡ map (λ m. m.name) (modules_in scopes.now) }
    requires valid { IsModule scope.now.module.now }
    requires small { module_size scope.now.module.now ≤ 268435456 }
    ensures { IfOk result (AreSides (modules_in scopes.now) (scope.now.module.now ∷ [])) }
{
    let mut sides = no_sides();
    let mut ties = Vec::new(alloc);
    let mut found = Vec::new(alloc);
    // Each pass over an item has its own.
    let mut near_use: usize = 0;
    let mut near_side: usize = 0;
    let mut number: u32 = 0;
    for item in scope.module.items.items() {
        ties.clear();
        push_item_ties(names, scopes, number, item, &mut ties)?;
        let wrong = has_wrong_use_in(&scope.table, &mut near_use, item, &mut found)?;
        let next = sides_of_ties(alloc, scope, &mut near_side, ties.as_slice(), wrong)?;
        sides = joined(sides, next);
        number += instance_count(item);
    }
    Ok(sides)
}

/// The sides of the modules, where `scopes` are the modules and `names` their names. What is tied is gathered once.
pub fn sides_of(alloc: Global, names: &NameSet, scopes: &[ModuleScope]) -> Result<Sides, NoMemory>
    requires named { names.now ≡ map (λ m. m.name) (modules_in scopes.now) }
    requires valid { AllByRecursion IsModule (modules_in scopes.now) }
    requires small { AllByRecursion (λ m. module_size m ≤ 268435456) (modules_in scopes.now) }
    ensures { IfOk result (AreSides (modules_in scopes.now) (modules_in scopes.now)) }
{
    let mut sides = no_sides();
    for scope in scopes {
        let next = sides_in_scope(alloc, names, scopes, scope)?;
        sides = joined(sides, next);
    }
    Ok(sides)
}
