// Rows from outside, and calls that take memory, of which no clause can say that they succeed.
ghost use Rattle.std.specs.Prelude.{◌≡◌, ◌+◌, ◌-◌, ◌*◌, ◌<◌, ◌≤◌};

use net_bits::{Adjacency, Classes, Names, Steps, constant_of, fresh_name, is_leaf};
use net_hier::{Constants, HCell, HNet, HPort, Hier, Join, Node, cells_fit};
use nl_base::{Dir, NoMemory, Seq, Text};
use std::alloc::Global;
use std::marker::Brand;
use std::process::Abort;
use std::sync::ledger::{Blank, Ledger};
use std::test::Fail;

// A cell with these joins.
fn joined(alloc: Global, joins: Seq<Join>) -> Result<HCell, NoMemory> {
    Ok(HCell {
        name: Text::copy(alloc, b"cell")?,
        ports: Seq::empty(alloc),
        instances: Seq::empty(alloc),
        nets: Seq::empty(alloc),
        joins,
        props: Seq::empty(alloc),
    })
}

// A cell of so many nets, each joined to the next, whose joins stand from the last pair to the first.
fn chain(alloc: Global, nets: u32) -> Result<HCell, NoMemory> {
    let mut joins = Seq::empty(alloc);
    for net in (1..nets).rev() {
        joins.push(Join {
            a: Node::Net(net - 1),
            b: Node::Net(net),
        })?;
    }
    let mut cell = joined(alloc, joins)?;
    for _net in 0..nets {
        cell.nets.push(HNet {
            name: Text::copy(alloc, b"n")?,
            props: Seq::empty(alloc),
        })?;
    }
    Ok(cell)
}

// The chain is one class, which takes at most as many steps as there are nets and ends of joins.
fn one_class<L: Ledger>(
    rt: &impl Abort,
    alloc: Global,
    nets: u32,
    steps: &mut Steps<L>,
) -> Result<(), NoMemory>
    requires { 0 < nets }
    ensures { steps.new ≤ steps.old + (3 * nets - 2) }
{
    let cell = chain(alloc, nets)?;
    assert!(rt; cell.joins.len() == nets as usize - 1 && cell.joins.len() <= 33_554_432);
    let adjacency = Adjacency::of_cell(alloc, &cell)?;
    assert!(rt; adjacency.count() == nets);
    let classes = Classes::of_cell(alloc, &cell, steps)?;
    assert!(rt; classes.count() == 1);
    assert!(rt; classes.members(0).len() == nets as usize);
    Ok(())
}

fn one_class_from<L: Ledger>(
    rt: &impl Abort,
    alloc: Global,
    nets: u32,
    blank: Blank,
) -> Result<(), NoMemory>
    requires nets { 0 < nets }
    requires name { blank.name ≡ L.name }
    requires parts { blank.parts ≡ L.parts }
    requires shares { 0 < blank.parts }
{
    let mut steps = Steps::<L>::start(blank);
    one_class(rt, alloc, nets, &mut steps)?;
    Ok(())
}

#[test]
fn chains_are_one_class(rt: HostRuntime) -> Result<(), Fail> {
    one_class_from::<Brand>(&rt, rt.alloc(), 1_000, Blank::new(1))?;
    one_class_from::<Brand>(&rt, rt.alloc(), 1_000_000, Blank::new(1))?;
    Ok(())
}

#[test]
fn no_joins_give_no_class(rt: HostRuntime) -> Result<(), Fail> {
    let alloc = rt.alloc();
    let cell = joined(alloc, Seq::empty(alloc))?;
    assert!(rt; cell.joins.len() <= 33_554_432);
    let classes = Classes::of_cell_uncounted(alloc, &cell)?;
    assert_eq!(rt; classes.count(), 0);
    assert!(rt; classes.class_of(&Node::Net(0)).is_none());
    Ok(())
}

// A cell of two classes of nodes.
fn two_classes(alloc: Global) -> Result<HCell, NoMemory> {
    let mut joins = Seq::empty(alloc);
    for (a, b) in [
        (Node::Net(7), Node::One),
        (Node::Net(2), Node::Net(2)),
        (Node::Port { port: 1, bit: 0 }, Node::Net(2)),
        (Node::Net(7), Node::Port { port: 0, bit: 3 }),
    ] {
        joins.push(Join { a, b })?;
    }
    joined(alloc, joins)
}

// Whether these are the classes of that cell.
fn are_two_classes(classes: &Classes) -> bool {
    let first = [Node::Port { port: 0, bit: 3 }, Node::Net(7), Node::One];
    let second = [Node::Port { port: 1, bit: 0 }, Node::Net(2)];
    classes.count() == 2
        && classes.members(0) == first.as_slice()
        && classes.members(1) == second.as_slice()
        && classes.class_of(&Node::One) == Some(0)
        && classes.class_of(&Node::Zero) == None
}

#[test]
fn classes_are_in_order(rt: HostRuntime) -> Result<(), Fail> {
    let cell = two_classes(rt.alloc())?;
    assert!(rt; cell.joins.len() <= 33_554_432);
    let classes = Classes::of_cell_uncounted(rt.alloc(), &cell)?;
    assert!(rt; are_two_classes(&classes));
    Ok(())
}

#[test]
fn neighbours_are_counted(rt: HostRuntime) -> Result<(), Fail> {
    let cell = two_classes(rt.alloc())?;
    assert!(rt; cell.joins.len() <= 33_554_432);
    let adjacency = Adjacency::of_cell(rt.alloc(), &cell)?;
    assert!(rt; adjacency.count() == 5 && adjacency.degree(2) == 3);
    Ok(())
}

// A design of one cell, which has an output of this name.
fn output(alloc: Global, cell: &[u8], port: &[u8]) -> Result<Seq<HCell>, NoMemory> {
    let mut made = joined(alloc, Seq::empty(alloc))?;
    made.name = Text::copy(alloc, cell)?;
    made.ports.push(HPort {
        name: Text::copy(alloc, port)?,
        range: None,
        dir: Dir::Output,
        props: Seq::empty(alloc),
    })?;
    let mut cells = Seq::empty(alloc);
    cells.push(made)?;
    Ok(cells)
}

// Which constant the only cell is.
fn constant(rt: &impl Abort, alloc: Global, hier: &Hier) -> Result<Option<bool>, NoMemory> {
    let constants = Constants::usual(alloc)?;
    let cells = hier.cells();
    assert!(rt; cells.len() == 1);
    assert!(rt; cells[0].joins.len() <= 33_554_432);
    let classes = Classes::of_cell_uncounted(alloc, &cells[0])?;
    assert!(rt; is_leaf(hier, 0, &classes));
    Ok(constant_of(hier, 0, &classes, &constants))
}

#[test]
fn constant_cells(rt: HostRuntime) -> Result<(), Fail> {
    let alloc = rt.alloc();
    for (cell, port, value) in [
        (b"GND", b"G", Some(false)),
        (b"VCC", b"P", Some(true)),
        (b"VCC", b"G", None),
    ] {
        let cells = output(alloc, cell, port)?;
        assert!(rt; cells_fit(alloc, &cells, 0)?);
        match Hier::build(alloc, cells, 0, Seq::empty(alloc)) {
            Ok(hier) => assert_eq!(rt; constant(&rt, alloc, &hier)?, value),
            Err(_) => assert!(rt; false),
        }
    }
    Ok(())
}

// Whether the fresh name with the stem n is this one, of this number.
fn is_fresh(alloc: Global, names: &Names, name: &[u8], number: u64) -> Result<bool, NoMemory> {
    let (fresh, found) = fresh_name(alloc, names, b"n", 0)?;
    Ok(fresh.bytes() == name && found == number)
}

#[test]
fn names_alike_up_to_case_are_one(rt: HostRuntime) -> Result<(), Fail> {
    let mut names = Names::new(rt.alloc(), true);
    for (name, is_new) in [(b"N0", true), (b"n0", false), (b"n1", true)] {
        assert_eq!(rt; names.add(rt.alloc(), name)?, is_new);
    }
    assert!(rt; names.has(b"N1") && names.len() == 2);
    assert!(rt; is_fresh(rt.alloc(), &names, b"n2", 2)?);
    Ok(())
}

#[test]
fn names_are_exact(rt: HostRuntime) -> Result<(), Fail> {
    let mut names = Names::new(rt.alloc(), false);
    assert!(rt; names.add(rt.alloc(), b"N0")?);
    assert!(rt; is_fresh(rt.alloc(), &names, b"n0", 0)?);
    Ok(())
}
