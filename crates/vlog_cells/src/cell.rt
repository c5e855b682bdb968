// A cell of a design, made of a module of a Verilog file.
ghost use Rattle.std.specs.Prelude.{◌≡◌, ◌≤◌, ◌<◌, ◌^◌, ◌++◌, [], true, All, None, length, map, reverse, IfOk};
ghost use Rattle.std.specs.List.{AllByRecursion};
ghost use Rattle.vlog_design.specs.Design.{module_cell, module_nets};
ghost use Rattle.vlog_design.specs.Names.{implicit_names, signals};
ghost use Rattle.vlog_design.specs.Numbers.{HasNumbers};
ghost use Rattle.vlog_design.specs.Rules.{declared_twice};
ghost use Rattle.vlog_design.specs.Tables.{names_of};
ghost use Rattle.vlog_scopes.specs.Distinct.{Distinct, signal_names};
ghost use Rattle.vlog_scopes.specs.Ranged.{net_slots, number_behind, of_range};
ghost use Rattle.vlog_scopes.specs.Signals.{declared_nets, declared_signals};
ghost use Rattle.vlog_values.specs.declared.module.Module.{Module as ModuleValue};
ghost use Rattle.vlog_values.specs.Sizes.{item_size, list_size, module_size};
ghost use Rattle.vlog_values.specs.Values.{IsItem, IsModule};
ghost use Rattle.vlog_ties.specs.Ties.{modules_in};
ghost use Rattle.vlog_cells.specs.Parts.{declared_part, tying_items};

use crate::instances::sets_in;
use crate::nets::nets_made;
use crate::parts::{Parts, parted};
use crate::pieces::Pieces;
use crate::pins::{Pins, pins_made};
use crate::ports::ports_made;
use crate::properties::attrs_made;
use net_hier::{HCell, HNet, HPort, HProp};
use nl_base::{NoMemory, Seq, Text};
use std::alloc::Global;
use vlog_design::names::NameSet;
use vlog_design::table::Table;
use vlog_rules::passes::ModuleScope;
use vlog_scopes::parts::{table_with, undeclared_names};
use vlog_values::{ItemV, Module};

/// Copies of names.
fn texts_copied(alloc: Global, names: &[&[u8]]) -> Result<Vec<Text>, NoMemory>
    ensures { IfOk result (λ made. made.items ≡ names_of names.now) }
{
    let mut made = Vec::with_capacity(alloc, names.len())?;
    for name in names {
        made.push(Text::copy(alloc, *name)?)?;
    }
    Ok(made)
}

/// The names that the module uses as nets without a declaration; no table is made where it is known that there are none.
fn undeclared(alloc: Global, is_declared: bool, m: &Module) -> Result<Vec<Text>, NoMemory>
    requires declared { is_declared ≡ true → implicit_names m.now ≡ [] }
    requires once { declared_twice m.now ≡ [] }
    requires small { module_size m.now ≤ 268435456 }
    ensures { IfOk result (λ names. names.items ≡ implicit_names m.now) }
{
    if is_declared {
        return Ok(Vec::new(alloc));
    }
    let found = undeclared_names(alloc, m)?;
    texts_copied(alloc, found.as_slice())
}

/// What a cell has but its name, with its instances, joins and nets in pieces.
#[derive(Drop)]
struct Made {
    ports: Seq<HPort>,
    pins: Pins,
    nets: Pieces<HNet>,
    props: Seq<HProp>,
}

/// The instances and the joins of a module, by what it declares, the table of its names and its items that tie nodes, the last one first.
/// An item that is done is left, or kept in `left` where there is room for it.
fn pins_of(
    alloc: Global,
    names: &NameSet,
    scopes: &[ModuleScope],
    declared: &Module,
    table: &Table,
    tying: Vec<ItemV>,
    left: &mut Vec<ItemV>,
) -> Result<Pins, NoMemory>
    requires named { names.now ≡ map (λ m. m.name) (modules_in scopes.now) }
    requires few { length (modules_in scopes.now) < 2 ^ 32 }
    requires valid { AllByRecursion IsItem (reverse tying.items) }
    requires small { list_size item_size (reverse tying.items) ≤ 268435456 }
    requires numbers { All (λ signal. HasNumbers signal.slot) table.now }
    ensures joins { IfOk result (λ pins. (m : ModuleValue) → table.now ≡ signals m
        → reverse tying.items ≡ tying_items m
        → pins.joins ≡ (module_cell (modules_in scopes.now) m).joins) }
    ensures instances { IfOk result (λ pins. (m : ModuleValue) → declared.now ≡ declared_part m
        → reverse tying.items ≡ tying_items m
        → pins.instances ≡ (module_cell (modules_in scopes.now) m).instances) }
{
    let found = sets_in(alloc, declared)?;
    let pins = pins_made(alloc, names, scopes, table, &found, tying, left)?;
    Ok(pins)
}

/// The nets of a module, by what it declares and the table of its names. They are one piece, which is made among what the statements left
/// and would keep long lists out of there.
fn nets_of(alloc: Global, declared: &Module, table: &Table) -> Result<Pieces<HNet>, NoMemory>
    ensures { IfOk result (λ made. (m : ModuleValue) → declared.now ≡ declared_part m
        → table.now ≡ signals m → made ≡ module_nets m) }
{
    let list = nets_made(alloc, declared, table)?;
    let nets = Pieces::of(alloc, list.into_vec())?;
    Ok(nets)
}

/// What the cell of a module has, by what the module declares, the table of its names and its items that tie nodes, the last one first.
fn made_by(
    alloc: Global,
    names: &NameSet,
    scopes: &[ModuleScope],
    declared: &Module,
    table: &Table,
    tying: Vec<ItemV>,
    left: &mut Vec<ItemV>,
) -> Result<Made, NoMemory>
    requires named { names.now ≡ map (λ m. m.name) (modules_in scopes.now) }
    requires few { length (modules_in scopes.now) < 2 ^ 32 }
    requires valid { AllByRecursion IsItem (reverse tying.items) }
    requires small { list_size item_size (reverse tying.items) ≤ 268435456 }
    requires numbers { All (λ signal. HasNumbers signal.slot) table.now }
    ensures ports { IfOk result (λ made. (m : ModuleValue) → declared.now ≡ declared_part m
        → table.now ≡ signals m → declared_twice m ≡ []
        → made.ports ≡ (module_cell (modules_in scopes.now) m).ports) }
    ensures instances { IfOk result (λ made. (m : ModuleValue) → declared.now ≡ declared_part m
        → reverse tying.items ≡ tying_items m
        → made.pins.instances ≡ (module_cell (modules_in scopes.now) m).instances) }
    ensures joins { IfOk result (λ made. (m : ModuleValue) → table.now ≡ signals m
        → reverse tying.items ≡ tying_items m
        → made.pins.joins ≡ (module_cell (modules_in scopes.now) m).joins) }
    ensures nets { IfOk result (λ made. (m : ModuleValue) → declared.now ≡ declared_part m
        → table.now ≡ signals m → made.nets ≡ (module_cell (modules_in scopes.now) m).nets) }
    ensures props { IfOk result (λ made. (m : ModuleValue) → declared.now ≡ declared_part m
        → made.props ≡ (module_cell (modules_in scopes.now) m).props) }
{
    let ports = ports_made(alloc, declared, table)?;
    let pins = pins_of(alloc, names, scopes, declared, table, tying, left)?;
    let nets = nets_of(alloc, declared, table)?;
    let props = attrs_made(alloc, declared.attrs.items())?;
    Ok(Made {
        ports,
        pins,
        nets,
        props,
    })
}

/// What the cell of a module has, by what the module declares, these names that it uses without a declaration, and its items that tie nodes,
/// the last one first. The table of its names is left.
fn made_with(
    alloc: Global,
    names: &NameSet,
    scopes: &[ModuleScope],
    undeclared: &[Text],
    declared: &Module,
    tying: Vec<ItemV>,
    left: &mut Vec<ItemV>,
) -> Result<Made, NoMemory>
    requires named { names.now ≡ map (λ m. m.name) (modules_in scopes.now) }
    requires few { length (modules_in scopes.now) < 2 ^ 32 }
    requires once { declared_twice declared.now ≡ [] }
    requires small { module_size declared.now ≤ 268435456 }
    requires apart { Distinct (signal_names (declared_signals declared.now) ++ undeclared.now) }
    requires numbers { All (λ signal. HasNumbers signal.slot) (declared_signals declared.now
        ++ net_slots (number_behind 0 (declared_nets declared.now))
        (of_range None undeclared.now)) }
    requires valid { AllByRecursion IsItem (reverse tying.items) }
    requires few_tying { list_size item_size (reverse tying.items) ≤ 268435456 }
    ensures ports { IfOk result (λ made. (m : ModuleValue) → declared.now ≡ declared_part m
        → undeclared.now ≡ implicit_names m → declared_twice m ≡ []
        → made.ports ≡ (module_cell (modules_in scopes.now) m).ports) }
    ensures instances { IfOk result (λ made. (m : ModuleValue) → declared.now ≡ declared_part m
        → reverse tying.items ≡ tying_items m
        → made.pins.instances ≡ (module_cell (modules_in scopes.now) m).instances) }
    ensures joins { IfOk result (λ made. (m : ModuleValue) → declared.now ≡ declared_part m
        → undeclared.now ≡ implicit_names m → reverse tying.items ≡ tying_items m
        → made.pins.joins ≡ (module_cell (modules_in scopes.now) m).joins) }
    ensures nets { IfOk result (λ made. (m : ModuleValue) → declared.now ≡ declared_part m
        → undeclared.now ≡ implicit_names m
        → made.nets ≡ (module_cell (modules_in scopes.now) m).nets) }
    ensures props { IfOk result (λ made. (m : ModuleValue) → declared.now ≡ declared_part m
        → made.props ≡ (module_cell (modules_in scopes.now) m).props) }
{
    let table = table_with(alloc, declared, undeclared)?;
    let made = made_by(alloc, names, scopes, declared, &table, tying, left)?;
    Ok(made)
}

/// What the cell of a module has, with the names that the module uses without a declaration. The module and the table of its names are
/// left.
fn made_of(
    alloc: Global,
    names: &NameSet,
    scopes: &[ModuleScope],
    undeclared: &[Text],
    m: Module,
) -> Result<Made, NoMemory>
    requires named { names.now ≡ map (λ m. m.name) (modules_in scopes.now) }
    requires few { length (modules_in scopes.now) < 2 ^ 32 }
    requires small { module_size m ≤ 268435456 }
    requires valid { IsModule m }
    requires undeclared { undeclared.now ≡ implicit_names m }
    requires once { declared_twice m ≡ [] }
    requires numbers { All (λ signal. HasNumbers signal.slot) (signals m) }
    ensures ports { IfOk result
        (λ made. made.ports ≡ (module_cell (modules_in scopes.now) m).ports) }
    ensures instances { IfOk result (λ made. made.pins.instances
        ≡ (module_cell (modules_in scopes.now) m).instances) }
    ensures joins { IfOk result (λ made. made.pins.joins
        ≡ (module_cell (modules_in scopes.now) m).joins) }
    ensures nets { IfOk result (λ made. made.nets ≡ (module_cell (modules_in scopes.now) m).nets) }
    ensures props { IfOk result
        (λ made. made.props ≡ (module_cell (modules_in scopes.now) m).props) }
{
    let Parts {
        declared,
        tying,
        mut left,
    } = parted(alloc, m)?;
    let made = made_with(
        alloc, names, scopes, undeclared, &declared, tying, &mut left,
    )?;
    Ok(made)
}

/// The cell of this name, with its pieces put together.
fn cell_with(name: Text, made: Made) -> Result<HCell, NoMemory>
    ensures name { IfOk result (λ cell. cell.name ≡ name) }
    ensures ports { IfOk result (λ cell. cell.ports ≡ made.ports) }
    ensures instances { IfOk result (λ cell. cell.instances ≡ made.pins.instances) }
    ensures nets { IfOk result (λ cell. cell.nets ≡ made.nets) }
    ensures joins { IfOk result (λ cell. cell.joins ≡ made.pins.joins) }
    ensures props { IfOk result (λ cell. cell.props ≡ made.props) }
{
    let Made {
        ports,
        pins,
        nets,
        props,
    } = made;
    let instances = pins.instances.whole()?;
    let joins = pins.joins.whole()?;
    let nets = nets.whole()?;
    Ok(HCell {
        name,
        ports,
        instances: Seq::of(instances),
        nets: Seq::of(nets),
        joins: Seq::of(joins),
        props,
    })
}

/// The cell that a module is, with the names that the module uses without a declaration. The module is left.
fn cell_by(
    alloc: Global,
    names: &NameSet,
    scopes: &[ModuleScope],
    undeclared: &[Text],
    m: Module,
) -> Result<HCell, NoMemory>
    requires named { names.now ≡ map (λ m. m.name) (modules_in scopes.now) }
    requires few { length (modules_in scopes.now) < 2 ^ 32 }
    requires small { module_size m ≤ 268435456 }
    requires valid { IsModule m }
    requires undeclared { undeclared.now ≡ implicit_names m }
    requires once { declared_twice m ≡ [] }
    requires numbers { All (λ signal. HasNumbers signal.slot) (signals m) }
    ensures { IfOk result (λ made. made ≡ module_cell (modules_in scopes.now) m) }
{
    let name = Text::copy(alloc, m.name.bytes())?;
    let made = made_of(alloc, names, scopes, undeclared, m)?;
    let cell = cell_with(name, made)?;
    Ok(cell)
}

/// The cell that a module is, in which no name is declared twice, where it is told whether it is known that a declaration declares each of
/// its nets. The scopes are the modules of the design, and the names their names. The statements of a large module are left while its
/// cell is made.
pub fn cell_of(
    alloc: Global,
    names: &NameSet,
    scopes: &[ModuleScope],
    is_declared: bool,
    m: Module,
) -> Result<HCell, NoMemory>
    requires named { names.now ≡ map (λ m. m.name) (modules_in scopes.now) }
    requires few { length (modules_in scopes.now) < 2 ^ 32 }
    requires small { module_size m ≤ 268435456 }
    requires valid { IsModule m }
    requires declared { is_declared ≡ true → implicit_names m ≡ [] }
    requires once { declared_twice m ≡ [] }
    requires numbers { All (λ signal. HasNumbers signal.slot) (signals m) }
    ensures { IfOk result (λ made. made ≡ module_cell (modules_in scopes.now) m) }
{
    let undeclared = undeclared(alloc, is_declared, &m)?;
    cell_by(alloc, names, scopes, undeclared.as_slice(), m)
}
