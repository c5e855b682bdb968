// What the flat classes need of each cell: links that connect what its joins connect, whether it is
// a leaf, and whether it stands for a constant.
ghost use Rattle.std.specs.Prelude.{◌≡◌, ◌++◌, ◌<◌, ◌≤◌, ◌↔◌, IsTrue, Some, true, false, length, slice_get, IfOk, OnOk};
ghost use Rattle.net_hier.specs.Design.{IsCell};
ghost use Rattle.net_hier.specs.Valid.{IsHier};
ghost use Rattle.net_bits.specs.Classes.{AreClassesAt};
ghost use Rattle.flat_classes.specs.Kinds.{AreKinds, IsKindAt, star, stars};

use flat_numbers::counts::bits_of_ports;
use net_bits::{Classes, constant_of, is_leaf};
use net_hier::{Constants, HCell, Hier, Join, Node};
use nl_base::NoMemory;
use std::alloc::Global;

/// A cell's links, whether it is a leaf, and which constant it stands for. Where there are no links
/// its own joins are taken.
#[derive(Drop)]
pub struct Kind {
    pub links: Vec<Join>,
    pub leaf: bool,
    pub constant: Option<bool>,
}

/// These for each cell.
#[derive(Drop)]
pub struct Kinds {
    pub links: Vec<Vec<Join>>,
    pub leaves: Vec<bool>,
    pub constants: Vec<Option<bool>>,
}

/// Adds a link from the first of connected nodes to each of the others.
fn push_star(links: &mut Vec<Join>, nodes: &[Node]) -> Result<(), NoMemory>
    ensures { OnOk result (links.new.items ≡ links.old.items ++ star nodes.now) }
{
    if let [hub, others @ ..] = nodes {
        for node in others {
            links.push(Join { a: *hub, b: *node })?;
        }
    }
    Ok(())
}

/// For each class of connected nodes a link from its first node to each of the others.
fn stars_of(alloc: Global, classes: &Classes) -> Result<Vec<Join>, NoMemory>
    ensures { IfOk result (λ links. links.items ≡ stars classes.now) }
{
    let mut links = Vec::new(alloc);
    for class in 0..classes.count() {
        push_star(&mut links, classes.members(class))?;
    }
    links.shrink_to_fit();
    Ok(links)
}

/// The classes of the cell of this number.
fn classes_at(alloc: Global, hier: &Hier, number: u32) -> Result<Classes, NoMemory>
    requires { number < length hier.now.cells }
    ensures { IfOk result (λ classes. AreClassesAt hier.now.cells number classes) }
{
    let classes = Classes::of_cell_uncounted(alloc, &hier.cells()[number as usize])?;
    Ok(classes)
}

/// Whether the cell has no more joins than nodes. Only a cell that repeats joins has more.
fn has_few_joins(cells: &[HCell], cell: &HCell) -> bool {
    let joins = cell.joins.len() as u64;
    let mut nodes = bits_of_ports(cell).saturating_add(cell.nets.len() as u64);
    for instance in cell.instances.items() {
        if let Some(below) = cells.get(instance.cell as usize) {
            nodes = nodes.saturating_add(bits_of_ports(below));
        }
    }
    joins <= nodes
}

/// The kind of the cell of this number. A cell with instances is no leaf, so that its classes are
/// made only where it has many joins: its spots then have fewer links than joins.
fn kind_at(alloc: Global, hier: &Hier, number: u32, constants: &Constants) -> Result<Kind, NoMemory>
    requires { number < length hier.now.cells }
    ensures { IfOk result (IsKindAt constants.now hier.now.cells number) }
{
    let cells = hier.cells();
    let cell = &cells[number as usize];
    if !cell.instances.is_empty() && has_few_joins(cells, cell) {
        return Ok(Kind {
            links: Vec::new(alloc),
            leaf: false,
            constant: None,
        });
    }
    let classes = classes_at(alloc, hier, number)?;
    let links = stars_of(alloc, &classes)?;
    Ok(Kind {
        links,
        leaf: is_leaf(hier, number, &classes),
        constant: constant_of(hier, number, &classes, constants),
    })
}

/// The links, the leaves and the constant cells of a design.
pub fn kinds_of(alloc: Global, hier: &Hier, constants: &Constants) -> Result<Kinds, NoMemory>
    ensures { IfOk result (AreKinds constants.now hier.now.cells) }
{
    let cells = hier.cells();
    let mut links = Vec::with_capacity(alloc, cells.len())?;
    let mut leaves = Vec::with_capacity(alloc, cells.len())?;
    let mut values = Vec::with_capacity(alloc, cells.len())?;
    for number in 0..cells.len() {
        let kind = kind_at(alloc, hier, number as u32, constants)?;
        let Kind {
            links: own,
            leaf,
            constant,
        } = kind;
        links.push(own)?;
        leaves.push(leaf)?;
        values.push(constant)?;
    }
    Ok(Kinds {
        links,
        leaves,
        constants: values,
    })
}
