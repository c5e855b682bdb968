// The rules on the two sides of connections and assignments: the first tie that breaks one, and its refusal.
ghost use Rattle.std.specs.Prelude.{◌≡◌, ◌∷◌, All, codes, find, option_map, IfOk};
ghost use Rattle.vlog_design.specs.Design.{first_use};
ghost use Rattle.vlog_design.specs.Rules.{refused};
ghost use Rattle.vlog_ties.specs.Ties.{HasNarrowLeft, all_tied, is_broken, any_pairing, is_unequal, is_unsized, rule_number, tied, tied_names};

use crate::expressions::{first_use, has_loose};
use crate::tie::Tie;
use nl_base::{NoMemory, Refusal, Rule};
use std::alloc::Global;
use vlog_design::table::Table;
use vlog_design::widths::width_near;
use vlog_rules::passes::ModuleScope;
use vlog_rules::refusals::{refuse, refuse_two};
use vlog_values::Expr;

/// The two sides have one width, or no unsized literal stands in them.
#[derive(Clone, Copy, PartialEq, Eq)]
pub enum TieRule {
    EqualWidths,
    SizedLiterals,
}

/// The rule by its number.
fn rule_number(rule: TieRule) -> Rule
    ensures { result ≡ rule_number rule }
{
    match rule {
        TieRule::EqualWidths => Rule::G8,
        TieRule::SizedLiterals => Rule::G13,
    }
}

/// Whether the two sides have two widths, and no unsized literal stands in them.
fn is_unequal(table: &Table, near: &mut usize, tie: &Tie) -> bool
    requires { HasNarrowLeft table.now (tied tie.now) }
    ensures { result ≡ any_pairing is_unequal table.now (tied tie.now) }
{
    match *tie {
        Tie::Pin { width, value, .. } => {
            u64::from(width) != width_near(table, near, value) && !has_loose(value)
        }
        Tie::Assign { left, right } => {
            width_near(table, near, left) != width_near(table, near, right)
                && !(has_loose(left) || has_loose(right))
        }
        Tie::Supply { .. } => false,
    }
}

/// Whether an unsized literal stands in one of the two sides.
fn is_unsized(table: &Table, tie: &Tie) -> bool
    ensures { result ≡ any_pairing is_unsized table.now (tied tie.now) }
{
    match *tie {
        Tie::Pin { value, .. } => has_loose(value),
        Tie::Assign { left, right } => has_loose(left) || has_loose(right),
        Tie::Supply { .. } => false,
    }
}

/// Whether a tie breaks the rule.
fn is_broken(rule: TieRule, table: &Table, near: &mut usize, tie: &Tie) -> bool
    requires { HasNarrowLeft table.now (tied tie.now) }
    ensures { result ≡ any_pairing (is_broken rule) table.now (tied tie.now) }
{
    match rule {
        TieRule::EqualWidths => is_unequal(table, near, tie),
        TieRule::SizedLiterals => is_unsized(table, tie),
    }
}

/// The first of the ties that breaks the rule.
fn first_broken<'a>(
    rule: TieRule,
    table: &Table,
    near: &mut usize,
    ties: &[Tie<'a>],
) -> Option<Tie<'a>>
    requires { All (λ tie. HasNarrowLeft table.now (tied tie)) ties.now }
    ensures { option_map tied result ≡ find (any_pairing (is_broken rule) table.now)
        (all_tied ties.now) }
{
    for tie in ties {
        if is_broken(rule, table, near, tie) {
            return Some(*tie);
        }
    }
    None
}

/// The refusal of an assignment by its left side.
fn refuse_assign(alloc: Global, rule: Rule, cell: &[u8], left: &Expr) -> Result<Refusal, NoMemory>
    ensures { IfOk result (λ refusal. refusal
        ≡ refused rule cell.now (codes "assign" ∷ first_use left.now)) }
{
    match first_use(left) {
        None => refuse(alloc, rule, cell, b"assign"),
        Some(name) => refuse_two(alloc, rule, cell, b"assign", name),
    }
}

/// The refusal of a tie.
fn refuse_tie(alloc: Global, rule: Rule, cell: &[u8], tie: &Tie) -> Result<Refusal, NoMemory>
    ensures { IfOk result (λ refusal. refusal ≡ refused rule cell.now (tied_names (tied tie.now))) }
{
    match *tie {
        Tie::Pin { instance, port, .. } => refuse_two(alloc, rule, cell, instance, port),
        Tie::Assign { left, .. } => refuse_assign(alloc, rule, cell, left),
        Tie::Supply { name, .. } => refuse(alloc, rule, cell, name),
    }
}

/// The refusal of the first of the ties of a scope that breaks the rule.
pub(crate) fn first_refusal(
    alloc: Global,
    rule: TieRule,
    scope: &ModuleScope,
    near: &mut usize,
    ties: &[Tie],
) -> Result<Option<Refusal>, NoMemory>
    requires { All (λ tie. HasNarrowLeft scope.now.table (tied tie)) ties.now }
    ensures { IfOk result (λ found. found
        ≡ option_map (λ t. refused (rule_number rule) scope.now.module.now.name (tied_names t))
        (find (any_pairing (is_broken rule) scope.now.table) (all_tied ties.now))) }
{
    match first_broken(rule, &scope.table, near, ties) {
        None => Ok(None),
        Some(tie) => {
            let cell = scope.module.name.bytes();
            Ok(Some(refuse_tie(alloc, rule_number(rule), cell, &tie)?))
        }
    }
}
