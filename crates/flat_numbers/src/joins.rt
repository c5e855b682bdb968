// The joins of the numbers. No list of them is made: each is linked where it is found.
ghost use Rattle.std.specs.Prelude.{ℕ, ◌≡◌, ◌<◌, ◌≤◌, length, IfOk};
ghost use Rattle.flat_numbers.specs.FlatJoins.{AreCellLinks, AreConstants, AreFew, AreJoinLabels, ConstantAt, ConstantsOf, HasLinks, InstanceAt, LinksOf, links_in};
ghost use Rattle.flat_numbers.specs.Forest.{IsForest, LinksMore};
ghost use Rattle.flat_numbers.specs.Numbers.{FlatJoin};
ghost use Rattle.flat_numbers.specs.TableParts.{HasTables, bases_in, spots_in};

use crate::linked::{join_roots, own_parents, settle};
use crate::numbers::{Tables, node_number};
use crate::spots::Spot;
use net_hier::{Constants, HCell, Hier, Join, Node};
use nl_base::NoMemory;
use std::alloc::Global;

/// Two numbers that are joined.
#[derive(Clone, Copy, PartialEq, Eq)]
pub struct NumberJoin {
    pub a: u32,
    pub b: u32,
}

/// Links an instance's pin and a constant, where the instance is of a constant cell.
fn link_constant(
    hier: &Hier,
    tables: &Tables,
    _names: &Constants,
    constants: &[Option<bool>],
    number: u32,
    place: u32,
    below: u32,
    parents: &mut [u32],
)
    requires are_tables { HasTables hier.now tables.now }
    requires are_constants { AreConstants _names.now hier.now.cells constants.now }
    requires instance { InstanceAt hier.now.cells (spots_in tables.now) number place below }
    requires forest { IsForest tables.now.layout.count parents.old }
    ensures { LinksMore tables.now.layout.count parents.old parents.new (ConstantAt _names.now
        hier.now.cells (spots_in tables.now) (bases_in tables.now) number place) }
{
    let _cells = hier.cells();
    match constants[below as usize] {
        None => {}
        Some(value) => {
            let pin = Node::Pin {
                instance: place,
                port: 0,
                bit: 0,
            };
            let a = node_number(hier, tables, number, pin);
            join_roots(parents, NumberJoin { a, b: value as u32 });
        }
    }
}

/// The links of the cell at a spot. Where its row has none they are its own joins, which lie in
/// the design already.
fn links_at<'a>(spot: Spot, cells: &'a [HCell], links: &'a [Vec<Join>]) -> &'a [Join]
    requires cells { spot.cell < length cells.now }
    requires links { length links.now ≡ length cells.now }
    ensures { result.now ≡ links_in cells.now links.now spot.cell }
{
    let row = links[spot.cell as usize].as_slice();
    let joins = cells[spot.cell as usize].joins.items();
    if row.is_empty() { joins } else { row }
}

/// Links by these links of the cell at a spot, by the numbers of their nodes.
fn link_links(hier: &Hier, tables: &Tables, links: &[Join], number: u32, parents: &mut [u32])
    requires are_tables { HasTables hier.now tables.now }
    requires links { HasLinks hier.now.cells (spots_in tables.now) number links.now }
    requires forest { IsForest tables.now.layout.count parents.old }
    ensures { LinksMore tables.now.layout.count parents.old parents.new (LinksOf hier.now.cells
        (spots_in tables.now) (bases_in tables.now) (λ _. links.now) number) }
{
    let _cells = hier.cells();
    for link in links {
        let a = node_number(hier, tables, number, link.a);
        let b = node_number(hier, tables, number, link.b);
        join_roots(parents, NumberJoin { a, b });
    }
}

/// Links the pins of a spot's instances of constant cells.
fn link_constants(
    hier: &Hier,
    tables: &Tables,
    names: &Constants,
    constants: &[Option<bool>],
    number: u32,
    parents: &mut [u32],
)
    requires are_tables { HasTables hier.now tables.now }
    requires are_constants { AreConstants names.now hier.now.cells constants.now }
    requires few { AreFew hier.now.cells }
    requires spot { number < length (spots_in tables.now) }
    requires forest { IsForest tables.now.layout.count parents.old }
    ensures { LinksMore tables.now.layout.count parents.old parents.new (ConstantsOf names.now
        hier.now.cells (spots_in tables.now) (bases_in tables.now) number) }
{
    let cells = hier.cells();
    let cell = &cells[tables.layout.spots[number as usize].cell as usize];
    let instances = cell.instances.items();
    for place in 0..instances.len() {
        link_constant(
            hier,
            tables,
            names,
            constants,
            number,
            place as u32,
            instances[place].cell,
            parents,
        );
    }
}

/// Links by the joins of the numbers of all spots: for each the links of its cell, and the pins of
/// its instances of constant cells.
fn link_spots(
    hier: &Hier,
    tables: &Tables,
    names: &Constants,
    links: &[Vec<Join>],
    constants: &[Option<bool>],
    parents: &mut [u32],
)
    requires are_tables { HasTables hier.now tables.now }
    requires are_links { AreCellLinks hier.now.cells links.now }
    requires are_constants { AreConstants names.now hier.now.cells constants.now }
    requires few { AreFew hier.now.cells }
    requires forest { IsForest tables.now.layout.count parents.old }
    ensures { LinksMore tables.now.layout.count parents.old parents.new (FlatJoin names.now
        hier.now.cells (spots_in tables.now) (bases_in tables.now)
        (links_in hier.now.cells links.now)) }
{
    let cells = hier.cells();
    for number in 0..tables.layout.spots.len() {
        let here = links_at(tables.layout.spots[number], cells, links);
        link_links(hier, tables, here, number as u32, parents);
        link_constants(hier, tables, names, constants, number as u32, parents);
    }
}

/// For each number the least number that joins link to it. The joins are those of all spots: the
/// links of each one's cell, and the pins of its instances of constant cells.
pub fn join_labels(
    alloc: Global,
    hier: &Hier,
    tables: &Tables,
    names: &Constants,
    links: &[Vec<Join>],
    constants: &[Option<bool>],
) -> Result<Vec<u32>, NoMemory>
    requires are_tables { HasTables hier.now tables.now }
    requires are_links { AreCellLinks hier.now.cells links.now }
    requires are_constants { AreConstants names.now hier.now.cells constants.now }
    requires few { AreFew hier.now.cells }
    ensures { IfOk result (λ labels. AreJoinLabels names.now hier.now.cells (spots_in tables.now)
        (bases_in tables.now) (links_in hier.now.cells links.now) tables.now.layout.count
        labels.items) }
{
    let mut parents = own_parents(alloc, tables.layout.count)?;
    link_spots(hier, tables, names, links, constants, &mut parents);
    settle(&mut parents);
    Ok(parents)
}
