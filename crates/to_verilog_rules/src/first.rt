// The first refusal of a design.
ghost use Rattle.std.specs.Prelude.{◌≡◌, ◌∷◌, ◌++◌, [], map, flat_map, option_map, IfOk};
ghost use Rattle.nl_base.specs.declared.rule.Rule.TheVariants.{V1, V2, V3, V4, V5};
ghost use Rattle.net_bits.specs.Names.{has_name as set_has};
ghost use Rattle.net_hier.specs.Design.{top_name};
ghost use Rattle.vlog_design.specs.Rules.{first_of, refused};
ghost use Rattle.to_verilog_rules.specs.Found.{flag_names};
ghost use Rattle.to_verilog_rules.specs.Rules.{boolean_parameters, boolean_params_of, cells_twice, first_V, in_cells, shared_names, unwritable_names, unwritable_of_design};

use crate::flags::{Flagged, flag_of};
use crate::twice::{cell_twice, port_and_instance};
use crate::unwritable::{in_cell, in_props};
use net_bits::Names;
use net_hier::{HCell, HInst, Hier};
use nl_base::{NoMemory, Refusal, Rule, Seq, Text};
use std::alloc::Global;
use vlog_rules::refusals::{refuse, refuse_two};

/// The refusal that names nothing but a cell.
fn refuse_cell(alloc: Global, rule: Rule, cell: &[u8]) -> Result<Refusal, NoMemory>
    ensures { IfOk result (λ refusal. refusal ≡ refused rule cell.now []) }
{
    let cell = Text::copy(alloc, cell)?;
    Ok(Refusal {
        rule,
        cell,
        names: Seq::empty(alloc),
    })
}

/// V1 of a cell: each of its names can be written.
fn unwritable_name(alloc: Global, cell: &HCell) -> Result<Option<Refusal>, NoMemory>
    ensures { IfOk result
        (λ found. found
        ≡ first_of (map (refused V1 cell.now.name) (unwritable_names cell.now))) }
{
    match in_cell(cell) {
        None => Ok(None),
        Some(found) => Ok(Some(refuse_two(
            alloc,
            Rule::V1,
            cell.name.bytes(),
            found.kind,
            found.name,
        )?)),
    }
}

/// V1: each name of a cell can be written.
fn first_unwritable(alloc: Global, cells: &[HCell]) -> Result<Option<Refusal>, NoMemory>
    ensures { IfOk result (λ found. found ≡ first_of (in_cells V1 unwritable_names cells.now)) }
{
    for cell in cells {
        if let Some(refusal) = unwritable_name(alloc, cell)? {
            return Ok(Some(refusal));
        }
    }
    Ok(None)
}

/// V2: no two cells have one name.
fn second_cell(alloc: Global, cells: &[HCell]) -> Result<Option<Refusal>, NoMemory>
    ensures { IfOk result (λ found. found ≡ first_of (cells_twice cells.now)) }
{
    let found = cell_twice(alloc, cells)?;
    match found {
        None => Ok(None),
        Some(name) => Ok(Some(refuse_cell(alloc, Rule::V2, name)?)),
    }
}

/// V3 of a cell: none of its ports has the name of one of its instances.
fn shared_name(alloc: Global, cell: &HCell) -> Result<Option<Refusal>, NoMemory>
    ensures { IfOk result
        (λ found. found ≡ first_of (map (refused V3 cell.now.name) (shared_names cell.now))) }
{
    let found = port_and_instance(alloc, cell)?;
    match found {
        None => Ok(None),
        Some(name) => Ok(Some(refuse(alloc, Rule::V3, cell.name.bytes(), name)?)),
    }
}

/// V3: no port of a cell has the name of one of its instances.
fn first_shared(alloc: Global, cells: &[HCell]) -> Result<Option<Refusal>, NoMemory>
    ensures { IfOk result (λ found. found ≡ first_of (in_cells V3 shared_names cells.now)) }
{
    for cell in cells {
        if let Some(refusal) = shared_name(alloc, cell)? {
            return Ok(Some(refusal));
        }
    }
    Ok(None)
}

/// V4: each name of a property of the design can be written.
fn unwritable_property(alloc: Global, hier: &Hier) -> Result<Option<Refusal>, NoMemory>
    ensures { IfOk result (λ found. found ≡ first_of
        (unwritable_of_design (top_name hier.now.cells hier.now.top) hier.now.props)) }
{
    let top = &hier.cells()[hier.top() as usize];
    match in_props(hier.props()) {
        None => Ok(None),
        Some(found) => Ok(Some(refuse(alloc, Rule::V4, top.name.bytes(), found.name)?)),
    }
}

/// V5 of an instance: the last value of a property that is to be a parameter is no boolean.
fn boolean_parameter(
    alloc: Global,
    cell: &[u8],
    instance: &HInst,
    params: &Names,
) -> Result<Option<Refusal>, NoMemory>
    ensures { IfOk result (λ found. found ≡ first_of
        (map (refused V5 cell.now) (boolean_params_of (set_has params.now) instance.now))) }
{
    let found = flag_of(alloc, instance, params)?;
    match found {
        None => Ok(None),
        Some(flag) => Ok(Some(refuse_two(alloc, Rule::V5, cell, flag.instance, flag.property)?)),
    }
}

/// V5 of instances.
fn boolean_among(
    alloc: Global,
    cell: &[u8],
    instances: &[HInst],
    params: &Names,
) -> Result<Option<Refusal>, NoMemory>
    ensures { IfOk result (λ found. found ≡ first_of
        (flat_map (λ instance. map (refused V5 cell.now)
        (boolean_params_of (set_has params.now) instance)) instances.now)) }
{
    for instance in instances {
        if let Some(refusal) = boolean_parameter(alloc, cell, instance, params)? {
            return Ok(Some(refusal));
        }
    }
    Ok(None)
}

/// V5 of a cell.
fn boolean_of_cell(alloc: Global, cell: &HCell, params: &Names) -> Result<Option<Refusal>, NoMemory>
    ensures { IfOk result (λ found. found ≡ first_of
        (map (refused V5 cell.now.name) (boolean_parameters (set_has params.now) cell.now))) }
{
    let found = boolean_among(alloc, cell.name.bytes(), cell.instances.items(), params)?;
    Ok(found)
}

/// V5: the last value of a property that is to be a parameter is no boolean.
fn first_boolean(
    alloc: Global,
    cells: &[HCell],
    params: &Names,
) -> Result<Option<Refusal>, NoMemory>
    ensures { IfOk result (λ found. found ≡ first_of
        (in_cells V5 (boolean_parameters (set_has params.now)) cells.now)) }
{
    for cell in cells {
        if let Some(refusal) = boolean_of_cell(alloc, cell, params)? {
            return Ok(Some(refusal));
        }
    }
    Ok(None)
}

/// V1 to V3: the names of cells.
fn first_of_cells(alloc: Global, cells: &[HCell]) -> Result<Option<Refusal>, NoMemory>
    ensures { IfOk result
        (λ found. found
        ≡ first_of
        (in_cells V1 unwritable_names cells.now ++ cells_twice cells.now
        ++ in_cells V3 shared_names cells.now)) }
{
    if let Some(refusal) = first_unwritable(alloc, cells)? {
        return Ok(Some(refusal));
    }
    if let Some(refusal) = second_cell(alloc, cells)? {
        return Ok(Some(refusal));
    }
    first_shared(alloc, cells)
}

/// The first object of the lowest rule that the design breaks, where the properties of these names are to be parameters of instances.
pub fn first_refusal(
    alloc: Global,
    hier: &Hier,
    params: &Names,
) -> Result<Option<Refusal>, NoMemory>
    ensures { IfOk result (λ found. found
        ≡ first_V hier.now.cells hier.now.top hier.now.props (set_has params.now)) }
{
    if let Some(refusal) = first_of_cells(alloc, hier.cells())? {
        return Ok(Some(refusal));
    }
    if let Some(refusal) = unwritable_property(alloc, hier)? {
        return Ok(Some(refusal));
    }
    first_boolean(alloc, hier.cells(), params)
}
