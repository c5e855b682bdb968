// The rules on modules with the tables of their names.
ghost use Rattle.std.specs.Prelude.{◌≡◌, ◌≤◌, ◌<◌, ◌++◌, true, length, map, IfOk};
ghost use Rattle.std.specs.List.{AllByRecursion, list_any};
ghost use Rattle.nl_base.specs.declared.rule.Rule.TheVariants.{G6, G7, G8, G13};
ghost use Rattle.vlog_checked.specs.ByTables.{IsFree};
ghost use Rattle.vlog_checked.specs.Groups.{BreakNone, connection_refusals, design_refusals, name_refusals, table_refusals, width_refusals};
ghost use Rattle.vlog_checked.specs.Tabled.{CanHaveTables};
ghost use Rattle.vlog_design.specs.Rules.{bad_selects, first_of, in_modules, unequal_widths, unknown_names, unsized};
ghost use Rattle.vlog_design.specs.Tables.{modules_of};
ghost use Rattle.vlog_rules.specs.WrongUses.{has_wrong_use};
ghost use Rattle.vlog_scopes.specs.Distinct.{AreDeclaredOnce};
ghost use Rattle.vlog_ties.specs.Sides.{AreSides};
ghost use Rattle.vlog_ties.specs.Ties.{modules_in};
ghost use Rattle.vlog_values.specs.Sizes.{module_size};

use crate::together::Both;
use nl_base::{NoMemory, Refusal};
use std::alloc::Global;
use vlog_design::names::NameSet;
use vlog_rules::connections::{ExtraConnections, PortsTwice, UnknownPorts};
use vlog_rules::library::ModulePorts;
use vlog_rules::module_rules::{BadSelects, TooWide, UnknownInstances, UnknownNames};
use vlog_rules::modules::ParamsTwice;
use vlog_rules::passes::{EachStatement, ModuleScope, first_in_modules, first_in_scopes};
use vlog_rules::statements::EachInstance;
use vlog_scopes::recursion::first_recursion;
use vlog_scopes::redeclared::Redeclared;
use vlog_scopes::scopes::scope_of;
use vlog_ties::sides::{Sides, sides_of};
use vlog_values::Module;

/// The modules with the tables of their names, in their order.
pub fn scopes_of<'a>(
    alloc: Global,
    modules: &[&'a Module],
) -> Result<Vec<ModuleScope<'a>>, NoMemory>
    requires once { AreDeclaredOnce (modules_of modules.now) }
    requires small { AllByRecursion (λ m. module_size m ≤ 268435456) (modules_of modules.now) }
    ensures { IfOk result (λ scopes. modules_in scopes.items ≡ modules_of modules.now) }
{
    let mut scopes = Vec::with_capacity(alloc, modules.len())?;
    for m in modules {
        scopes.push(scope_of(alloc, *m)?)?;
    }
    Ok(scopes)
}

/// The first name in an expression that is no port and no net, or else the first select that means no bits, where it is known whether
/// there is one.
fn first_in_uses(
    alloc: Global,
    scopes: &[ModuleScope],
    wrong: bool,
) -> Result<Option<Refusal>, NoMemory>
    requires { wrong ≡ list_any has_wrong_use (modules_in scopes.now) }
    ensures { IfOk result (λ found. found
        ≡ first_of (in_modules G6 unknown_names (modules_in scopes.now)
        ++ in_modules G7 bad_selects (modules_in scopes.now))) }
{
    if !wrong {
        return Ok(None);
    }
    if let Some(refusal) = first_in_scopes(alloc, &UnknownNames, scopes)? {
        return Ok(Some(refusal));
    }
    first_in_scopes(alloc, &BadSelects, scopes)
}

/// The first name, select or width that breaks a rule, by the first of the two sides of two widths.
fn first_in_names(
    alloc: Global,
    scopes: &[ModuleScope],
    wrong: bool,
    unequal: Option<Refusal>,
) -> Result<Option<Refusal>, NoMemory>
    requires wrong { wrong ≡ list_any has_wrong_use (modules_in scopes.now) }
    requires unequal { unequal ≡ first_of
        (in_modules G8 (unequal_widths (modules_in scopes.now)) (modules_in scopes.now)) }
    ensures { IfOk result (λ found. found ≡ first_of (name_refusals (modules_in scopes.now))) }
{
    if let Some(refusal) = first_in_uses(alloc, scopes, wrong)? {
        return Ok(Some(refusal));
    }
    Ok(unequal)
}

/// The first connection that breaks a rule.
fn first_in_connections(alloc: Global, library: &ModulePorts) -> Result<Option<Refusal>, NoMemory>
    ensures { IfOk result (λ found. found
        ≡ first_of (connection_refusals (modules_of library.now.modules.items))) }
{
    let unknown = EachStatement {
        rule: EachInstance {
            rule: UnknownPorts { library },
        },
    };
    if let Some(refusal) = first_in_modules(alloc, &unknown, &library.modules)? {
        return Ok(Some(refusal));
    }
    let twice = EachStatement {
        rule: EachInstance { rule: PortsTwice },
    };
    if let Some(refusal) = first_in_modules(alloc, &twice, &library.modules)? {
        return Ok(Some(refusal));
    }
    let extra = EachStatement {
        rule: EachInstance {
            rule: ExtraConnections { library },
        },
    };
    first_in_modules(alloc, &extra, &library.modules)
}

/// The first port, net, literal or parameter that breaks a rule, by the first of the two sides with an unsized literal.
fn first_in_widths(
    alloc: Global,
    modules: &[&Module],
    scopes: &[ModuleScope],
    loose: Option<Refusal>,
) -> Result<Option<Refusal>, NoMemory>
    requires same { modules_of modules.now ≡ modules_in scopes.now }
    requires loose { loose ≡ first_of
        (in_modules G13 (unsized (modules_in scopes.now)) (modules_in scopes.now)) }
    ensures { IfOk result (λ found. found ≡ first_of (width_refusals (modules_in scopes.now))) }
{
    if let Some(refusal) = first_in_scopes(alloc, &TooWide, scopes)? {
        return Ok(Some(refusal));
    }
    if let Some(refusal) = loose {
        return Ok(Some(refusal));
    }
    let twice = EachStatement { rule: ParamsTwice };
    if let Some(refusal) = first_in_modules(alloc, &twice, modules)? {
        return Ok(Some(refusal));
    }
    first_in_scopes(alloc, &Redeclared, scopes)
}

/// The first instance through which a module reaches itself, or else the first value that is given to an instance that is not there.
fn first_in_instances(
    alloc: Global,
    names: &NameSet,
    modules: &[&Module],
    top: u32,
) -> Result<Option<Refusal>, NoMemory>
    requires named { names.now ≡ map (λ m. m.name) (modules_of modules.now) }
    requires kept { CanHaveTables (modules_of modules.now) }
    requires within { top < length modules.now }
    ensures { IfOk result (λ found. found ≡ first_of (design_refusals (modules_of modules.now))) }
{
    if let Some(refusal) = first_recursion(alloc, names, modules, top)? {
        return Ok(Some(refusal));
    }
    first_in_modules(alloc, &UnknownInstances, modules)
}

/// The first object of modules that breaks a rule on what their names stand for, by the first of the two sides that break one.
pub(crate) fn first_in_tables(
    alloc: Global,
    library: &ModulePorts,
    scopes: &[ModuleScope],
    top: u32,
    sides: Sides,
) -> Result<Option<Refusal>, NoMemory>
    requires same { modules_in scopes.now ≡ modules_of library.now.modules.items }
    requires kept { CanHaveTables (modules_of library.now.modules.items) }
    requires within { top < length library.now.modules.items }
    requires sides { AreSides (modules_in scopes.now) (modules_in scopes.now) sides }
    ensures { IfOk result (λ found. found
        ≡ first_of (table_refusals (modules_of library.now.modules.items))) }
{
    let Sides {
        unequal,
        loose,
        wrong,
        ..
    } = sides;
    if let Some(refusal) = first_in_names(alloc, scopes, wrong, unequal)? {
        return Ok(Some(refusal));
    }
    if let Some(refusal) = first_in_connections(alloc, library)? {
        return Ok(Some(refusal));
    }
    if let Some(refusal) = first_in_widths(alloc, &library.modules, scopes, loose)? {
        return Ok(Some(refusal));
    }
    first_in_instances(alloc, &library.names, &library.modules, top)
}

/// The first object of modules that breaks a rule on what their names stand for, by the tables of all of them.
fn first_by_tables(
    alloc: Global,
    library: &ModulePorts,
    top: u32,
) -> Result<Option<Refusal>, NoMemory>
    requires kept { CanHaveTables (modules_of library.now.modules.items) }
    requires within { top < length library.now.modules.items }
    ensures { IfOk result (λ found. found
        ≡ first_of (table_refusals (modules_of library.now.modules.items))) }
{
    let made = scopes_of(alloc, &library.modules)?;
    let scopes = made.as_slice();
    let sides = sides_of(alloc, &library.names, scopes)?;
    first_in_tables(alloc, library, scopes, top, sides)
}

/// Whether it is seen that no module breaks a rule on connections, parameters or values for parameters of instances. All of them are
/// tried on a module before the next one is looked at: `false` says nothing.
fn break_none(alloc: Global, library: &ModulePorts) -> Result<bool, NoMemory>
    ensures { IfOk result
        (λ none. none ≡ true → BreakNone (modules_of library.now.modules.items)) }
{
    let rules = Both {
        first: Both {
            first: EachStatement {
                rule: EachInstance {
                    rule: UnknownPorts { library },
                },
            },
            second: Both {
                first: EachStatement {
                    rule: EachInstance { rule: PortsTwice },
                },
                second: EachStatement {
                    rule: EachInstance {
                        rule: ExtraConnections { library },
                    },
                },
            },
        },
        second: Both {
            first: EachStatement { rule: ParamsTwice },
            second: UnknownInstances,
        },
    };
    let found = first_in_modules(alloc, &rules, &library.modules)?;
    Ok(found.is_none())
}

/// The first object of modules that breaks a rule on connections, parameters or instances, where none breaks one that needs a table.
fn first_of_free(
    alloc: Global,
    library: &ModulePorts,
    top: u32,
) -> Result<Option<Refusal>, NoMemory>
    requires kept { CanHaveTables (modules_of library.now.modules.items) }
    requires within { top < length library.now.modules.items }
    requires free { AllByRecursion (IsFree (modules_of library.now.modules.items))
        (modules_of library.now.modules.items) }
    ensures { IfOk result (λ found. found
        ≡ first_of (table_refusals (modules_of library.now.modules.items))) }
{
    let unbroken = break_none(alloc, library)?;
    if unbroken {
        return first_recursion(alloc, &library.names, &library.modules, top);
    }
    if let Some(refusal) = first_in_connections(alloc, library)? {
        return Ok(Some(refusal));
    }
    let twice = EachStatement { rule: ParamsTwice };
    if let Some(refusal) = first_in_modules(alloc, &twice, &library.modules)? {
        return Ok(Some(refusal));
    }
    first_in_instances(alloc, &library.names, &library.modules, top)
}

/// The first object of modules that breaks a rule on what their names stand for. The tables of all modules are made only where it is
/// not seen that no module breaks a rule that needs its table.
pub(crate) fn first_by_look(
    alloc: Global,
    library: &ModulePorts,
    top: u32,
    is_free: bool,
) -> Result<Option<Refusal>, NoMemory>
    requires kept { CanHaveTables (modules_of library.now.modules.items) }
    requires within { top < length library.now.modules.items }
    requires free { is_free ≡ true → AllByRecursion (IsFree (modules_of library.now.modules.items))
        (modules_of library.now.modules.items) }
    ensures { IfOk result (λ found. found
        ≡ first_of (table_refusals (modules_of library.now.modules.items))) }
{
    if is_free {
        return first_of_free(alloc, library, top);
    }
    first_by_tables(alloc, library, top)
}
