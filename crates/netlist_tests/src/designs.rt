// Rows from outside, and calls that take memory, of which no clause can say that they succeed.
use net_hier::{
    BuildFault, ConstName, Constants, HCell, HInst, HNet, HPort, Hier, Join, Node, cells_fit,
};
use nl_base::{Dir, NoMemory, Range, Seq, Text};
use std::alloc::Global;
use std::test::Fail;

fn instance(alloc: Global, name: &[u8], cell: u32) -> Result<HInst, NoMemory> {
    let name = Text::copy(alloc, name)?;
    Ok(HInst {
        name,
        cell,
        props: Seq::empty(alloc),
    })
}

pub fn instances(alloc: Global, uses: &[(&[u8], u32)]) -> Result<Seq<HInst>, NoMemory> {
    let mut made = Seq::empty(alloc);
    for (name, cell) in uses {
        made.push(instance(alloc, name, *cell)?)?;
    }
    Ok(made)
}

// A cell with instances of these names and cells.
fn cell(alloc: Global, uses: &[(&[u8], u32)]) -> Result<HCell, NoMemory> {
    let instances = instances(alloc, uses)?;
    let name = Text::copy(alloc, b"c")?;
    Ok(HCell {
        name,
        ports: Seq::empty(alloc),
        instances,
        nets: Seq::empty(alloc),
        joins: Seq::empty(alloc),
        props: Seq::empty(alloc),
    })
}

fn cells(alloc: Global, uses: &[&[(&[u8], u32)]]) -> Result<Seq<HCell>, NoMemory> {
    let mut made = Seq::empty(alloc);
    for one in uses {
        made.push(cell(alloc, one)?)?;
    }
    Ok(made)
}

#[derive(Clone, Copy, Debug, PartialEq)]
enum Answer {
    Design([u32; 2]),
    Recursion(u32, u32),
    TooBig,
    NoFit,
}

// The first two numbers of the order, where its parts are as many as the cells.
fn design_of(hier: &Hier, top: u32) -> Answer {
    match hier.order() {
        [first, second, ..] if hier.top() == top && hier.props().len() == 0 => {
            Answer::Design([*first, *second])
        }
        _ => Answer::NoFit,
    }
}

fn answer_of(alloc: Global, cells: Seq<HCell>, top: u32) -> Result<Answer, NoMemory> {
    if !cells_fit(alloc, &cells, top)? {
        return Ok(Answer::NoFit);
    }
    match Hier::build(alloc, cells, top, Seq::empty(alloc)) {
        Ok(hier) => Ok(design_of(&hier, top)),
        Err(BuildFault::Recursion { cell, instance }) => Ok(Answer::Recursion(cell, instance)),
        Err(BuildFault::TooBig(_)) => Ok(Answer::TooBig),
        Err(BuildFault::NoMemory) => Err(NoMemory),
    }
}

fn row(alloc: Global, uses: &[&[(&[u8], u32)]], top: u32) -> Result<Answer, NoMemory> {
    let cells = cells(alloc, uses)?;
    let answer = answer_of(alloc, cells, top)?;
    Ok(answer)
}

// A cell of two nets and a port of two bits, with this join.
fn joined(alloc: Global, a: Node, b: Node) -> Result<HCell, NoMemory> {
    let mut made = cell(alloc, &[])?;
    for name in [b"m", b"n"] {
        made.nets.push(HNet {
            name: Text::copy(alloc, name)?,
            props: Seq::empty(alloc),
        })?;
    }
    made.ports.push(HPort {
        name: Text::copy(alloc, b"p")?,
        range: Some(Range { left: 1, right: 0 }),
        dir: Dir::Input,
        props: Seq::empty(alloc),
    })?;
    made.joins.push(Join { a, b })?;
    Ok(made)
}

// Whether a design of a cell alone with this join keeps the conditions on cells.
fn join_fits(alloc: Global, a: Node, b: Node) -> Result<bool, NoMemory> {
    let mut cells = Seq::empty(alloc);
    cells.push(joined(alloc, a, b)?)?;
    let fits = cells_fit(alloc, &cells, 0)?;
    Ok(fits)
}

#[test]
fn ends_of_joins(rt: HostRuntime) -> Result<(), Fail> {
    let port = |bit| Node::Port { port: 0, bit };
    let pin = Node::Pin {
        instance: 0,
        port: 0,
        bit: 0,
    };
    for (a, b, fits) in [
        (Node::Net(0), Node::Net(1), true),
        (Node::Net(0), Node::Net(2), false),
        (port(1), Node::One, true),
        (port(2), Node::One, false),
        (Node::Zero, pin, false),
    ] {
        assert_eq!(rt; join_fits(rt.alloc(), a, b)?, fits);
    }
    Ok(())
}

#[test]
fn a_cell_that_has_itself(rt: HostRuntime) -> Result<(), Fail> {
    let answer = row(rt.alloc(), &[&[(b"u", 0)]], 0)?;
    assert_eq!(rt; answer, Answer::Recursion(0, 0));
    Ok(())
}

#[test]
fn a_cycle_of_three_cells(rt: HostRuntime) -> Result<(), Fail> {
    let answer = row(
        rt.alloc(),
        &[&[(b"u0", 3), (b"u1", 1)], &[(b"v", 2)], &[(b"w", 0)], &[]],
        0,
    )?;
    assert_eq!(rt; answer, Answer::Recursion(0, 1));
    Ok(())
}

#[test]
fn two_instances_of_one_cell(rt: HostRuntime) -> Result<(), Fail> {
    let answer = row(rt.alloc(), &[&[], &[(b"u0", 0), (b"u1", 0)]], 1)?;
    assert_eq!(rt; answer, Answer::Design([0, 1]));
    Ok(())
}

#[test]
fn a_cell_that_is_not_reached(rt: HostRuntime) -> Result<(), Fail> {
    let answer = row(rt.alloc(), &[&[(b"u", 1)], &[]], 1)?;
    assert_eq!(rt; answer, Answer::NoFit);
    Ok(())
}

// 100,000 cells, each with one instance of the next. The last has one of the cell `back`, if there is one.
fn chain(alloc: Global, back: Option<u32>) -> Result<Seq<HCell>, NoMemory> {
    let mut made = Seq::empty(alloc);
    for number in 1..100_000 {
        made.push(cell(alloc, &[(b"u", number)])?)?;
    }
    match back {
        Some(number) => made.push(cell(alloc, &[(b"u", number)])?)?,
        None => made.push(cell(alloc, &[])?)?,
    }
    Ok(made)
}

fn chained(alloc: Global, back: Option<u32>) -> Result<Answer, NoMemory> {
    let cells = chain(alloc, back)?;
    let answer = answer_of(alloc, cells, 0)?;
    Ok(answer)
}

// The time of `build` is in proportion to the cells: a search from each cell would not end here in a test's time.
#[test]
fn deep_chains(rt: HostRuntime) -> Result<(), Fail> {
    for (back, answer) in [
        (None, Answer::Design([99_999, 99_998])),
        (Some(0), Answer::Recursion(0, 0)),
        (Some(99_999), Answer::Recursion(99_999, 0)),
    ] {
        assert_eq!(rt; chained(rt.alloc(), back)?, answer);
    }
    Ok(())
}

fn const_name(alloc: Global, cell: &[u8]) -> Result<ConstName, NoMemory> {
    let cell = Text::copy(alloc, cell)?;
    let port = Text::copy(alloc, b"Y")?;
    Ok(ConstName { cell, port })
}

// Whether the usual constants are `GND.G` and `VCC.P`.
fn are_usual(constants: &Constants) -> bool {
    let (zero, one) = (constants.zero(), constants.one());
    zero.cell.bytes() == b"GND".as_slice()
        && zero.port.bytes() == b"G".as_slice()
        && one.cell.bytes() == b"VCC".as_slice()
        && one.port.bytes() == b"P".as_slice()
}

#[test]
fn usual_constants(rt: HostRuntime) -> Result<(), Fail> {
    let usual = Constants::usual(rt.alloc())?;
    assert!(rt; are_usual(&usual));
    Ok(())
}

// Whether `ZERO.Y` and the port Y of this cell are constants.
fn are_constants(alloc: Global, other: &[u8]) -> Result<bool, NoMemory> {
    let zero = const_name(alloc, b"ZERO")?;
    let one = const_name(alloc, other)?;
    let is = Constants::check(zero, one).is_some();
    Ok(is)
}

#[test]
fn constants_are_checked(rt: HostRuntime) -> Result<(), Fail> {
    for (other, fits) in [(b"ONE".as_slice(), true), (b"ZERO", false), (b"", false)] {
        assert_eq!(rt; are_constants(rt.alloc(), other)?, fits);
    }
    Ok(())
}

#[test]
fn nodes_are_ordered(rt: HostRuntime) {
    let bit = Node::Port { port: 0, bit: 9 };
    let pin = Node::Pin {
        instance: 0,
        port: 1,
        bit: 0,
    };
    assert!(rt; bit < Node::Port { port: 1, bit: 0 } && bit < pin && pin < Node::Net(0));
    assert!(rt; Node::Net(9) < Node::Zero && Node::Zero < Node::One);
}
