// Rows from outside, and calls that take memory, of which no clause can say that they succeed.
use crate::designs::instances;
use flat_classes::{Flat, FlatFault, flat_count};
use net_hier::{Constants, HCell, HNet, HPort, Hier, Join, Node, cells_fit};
use nl_base::{Dir, NoMemory, Seq, Text};
use std::alloc::Global;
use std::process::Abort;
use std::test::Fail;

// A cell: its name, its ports, its instances with their cells, how many nets it has, and its joins.
#[derive(Clone, Copy)]
struct Part<'a> {
    name: &'a [u8],
    ports: &'a [&'a [u8]],
    uses: &'a [(&'a [u8], u32)],
    nets: u32,
    joins: &'a [(Node, Node)],
}

fn ports(alloc: Global, names: &[&[u8]]) -> Result<Seq<HPort>, NoMemory> {
    let mut made = Seq::empty(alloc);
    for name in names {
        made.push(HPort {
            name: Text::copy(alloc, name)?,
            range: None,
            dir: Dir::Output,
            props: Seq::empty(alloc),
        })?;
    }
    Ok(made)
}

fn nets(alloc: Global, count: u32) -> Result<Seq<HNet>, NoMemory> {
    let mut made = Seq::empty(alloc);
    for _net in 0..count {
        made.push(HNet {
            name: Text::copy(alloc, b"n")?,
            props: Seq::empty(alloc),
        })?;
    }
    Ok(made)
}

fn joins(alloc: Global, pairs: &[(Node, Node)]) -> Result<Seq<Join>, NoMemory> {
    let mut made = Seq::empty(alloc);
    for (a, b) in pairs {
        made.push(Join { a: *a, b: *b })?;
    }
    Ok(made)
}

fn cell(alloc: Global, part: &Part) -> Result<HCell, NoMemory> {
    Ok(HCell {
        name: Text::copy(alloc, part.name)?,
        ports: ports(alloc, part.ports)?,
        instances: instances(alloc, part.uses)?,
        nets: nets(alloc, part.nets)?,
        joins: joins(alloc, part.joins)?,
        props: Seq::empty(alloc),
    })
}

#[derive(Clone, Copy, Debug, PartialEq)]
enum Answer {
    Flat(bool),
    TooLarge(u64),
    NoDesign,
}

// Whether these are the leaves, and the groups of the terminals.
fn is_flat(flat: &Flat, leaves: &[u32], groups: &[u32]) -> bool {
    if flat.leaves() != leaves || flat.terminals().len() != groups.len() || groups.len() > 100 {
        return false;
    }
    for place in 0..groups.len() {
        if flat.group(place as u32) != groups[place] {
            return false;
        }
    }
    true
}

// Whether the lists of the groups' places have this many places in all.
fn are_members(alloc: Global, flat: &Flat, places: usize) -> Result<bool, NoMemory> {
    let members = flat.members(alloc)?;
    let mut count: usize = 0;
    for group in 0..members.count() {
        count = count.saturating_add(members.of(group).len());
    }
    Ok(count == places)
}

fn answer_of(
    rt: &impl Abort,
    alloc: Global,
    hier: &Hier,
    leaves: &[u32],
    groups: &[u32],
) -> Result<Answer, NoMemory> {
    let constants = Constants::usual(alloc)?;
    match Flat::of(alloc, hier, &constants) {
        Ok(flat) => {
            let all = are_members(alloc, &flat, groups.len())?;
            Ok(Answer::Flat(all && is_flat(&flat, leaves, groups)))
        }
        Err(FlatFault::TooLarge(count)) => {
            assert_eq!(rt; flat_count(alloc, hier)?, count);
            Ok(Answer::TooLarge(count))
        }
        Err(FlatFault::NoMemory) => Err(NoMemory),
    }
}

fn hier_of(alloc: Global, cells: Seq<HCell>, top: u32) -> Result<Option<Hier>, NoMemory> {
    if !cells_fit(alloc, &cells, top)? {
        return Ok(None);
    }
    match Hier::build(alloc, cells, top, Seq::empty(alloc)) {
        Ok(hier) => Ok(Some(hier)),
        Err(_) => Ok(None),
    }
}

fn answer_for(
    rt: &impl Abort,
    alloc: Global,
    cells: Seq<HCell>,
    top: u32,
    leaves: &[u32],
    groups: &[u32],
) -> Result<Answer, NoMemory> {
    match hier_of(alloc, cells, top)? {
        Some(hier) => {
            let answer = answer_of(rt, alloc, &hier, leaves, groups)?;
            Ok(answer)
        }
        None => Ok(Answer::NoDesign),
    }
}

fn row(
    rt: &impl Abort,
    alloc: Global,
    parts: &[Part],
    top: u32,
    leaves: &[u32],
    groups: &[u32],
) -> Result<Answer, NoMemory> {
    let mut cells = Seq::empty(alloc);
    for part in parts {
        cells.push(cell(alloc, part)?)?;
    }
    let answer = answer_for(rt, alloc, cells, top, leaves, groups)?;
    Ok(answer)
}

fn port(port: u32) -> Node {
    Node::Port { port, bit: 0 }
}

fn pin(instance: u32, port: u32) -> Node {
    Node::Pin {
        instance,
        port,
        bit: 0,
    }
}

// A cell of these ports and joins alone.
fn plain<'a>(name: &'a [u8], ports: &'a [&'a [u8]], joins: &'a [(Node, Node)]) -> Part<'a> {
    Part {
        name,
        ports,
        uses: &[],
        nets: 0,
        joins,
    }
}

// The leaf `i` in the box `b` behind the feedthrough `f` is connected to both ports of the top.
#[test]
fn connections_go_through_two_levels(rt: HostRuntime) -> Result<(), Fail> {
    let inside = [
        (Node::Net(0), port(0)),
        (Node::Net(0), pin(0, 0)),
        (Node::Net(1), port(1)),
        (Node::Net(1), pin(0, 1)),
    ];
    let outside = [
        (Node::Net(0), port(0)),
        (Node::Net(0), pin(0, 0)),
        (Node::Net(1), pin(0, 1)),
        (Node::Net(1), pin(1, 0)),
        (Node::Net(2), pin(1, 1)),
        (Node::Net(2), port(1)),
    ];
    let through = [(port(0), port(1))];
    let parts = [
        plain(b"INV", &[b"I", b"O"], &[]),
        plain(b"feed", &[b"a", b"y"], &through),
        Part {
            name: b"box",
            ports: &[b"I", b"O"],
            uses: &[(b"i", 0)],
            nets: 2,
            joins: &inside,
        },
        Part {
            name: b"top",
            ports: &[b"a", b"y"],
            uses: &[(b"f", 1), (b"b", 2)],
            nets: 3,
            joins: &outside,
        },
    ];
    let answer = row(&rt, rt.alloc(), &parts, 3, &[3], &[0, 1, 0, 1, 2, 3])?;
    assert_eq!(rt; answer, Answer::Flat(true));
    Ok(())
}

// A top of two ports and these joins.
fn top_row(
    rt: &impl Abort,
    alloc: Global,
    joins: &[(Node, Node)],
    leaves: &[u32],
    groups: &[u32],
) -> Result<Answer, NoMemory> {
    let parts = [plain(b"top", &[b"a", b"b"], joins)];
    let answer = row(rt, alloc, &parts, 0, leaves, groups)?;
    Ok(answer)
}

#[test]
fn tops_without_instances(rt: HostRuntime) -> Result<(), Fail> {
    let joined = top_row(&rt, rt.alloc(), &[(port(0), port(1))], &[], &[0, 0, 1, 2])?;
    let apart = top_row(&rt, rt.alloc(), &[], &[0], &[0, 1, 2, 3])?;
    let zero = top_row(
        &rt,
        rt.alloc(),
        &[(port(1), Node::Zero)],
        &[],
        &[0, 1, 1, 2],
    )?;
    assert!(rt; [joined, apart, zero] == [Answer::Flat(true); 3]);
    Ok(())
}

// The constant cell is no leaf, and its pin is the constant.
#[test]
fn pins_of_constant_cells(rt: HostRuntime) -> Result<(), Fail> {
    let joins = [(port(1), pin(0, 0))];
    let parts = [
        plain(b"VCC", &[b"P"], &[]),
        Part {
            name: b"top",
            ports: &[b"a", b"b"],
            uses: &[(b"one", 0)],
            nets: 0,
            joins: &joins,
        },
    ];
    let answer = row(&rt, rt.alloc(), &parts, 1, &[], &[0, 1, 2, 1])?;
    assert_eq!(rt; answer, Answer::Flat(true));
    Ok(())
}

// So many cells, of which each hands its port on to an instance of the next.
fn chain(alloc: Global, count: u32) -> Result<Seq<HCell>, NoMemory> {
    let joins = [(port(0), pin(0, 0))];
    let mut made = Seq::empty(alloc);
    for number in 1..count {
        let part = Part {
            name: b"c",
            ports: &[b"a"],
            uses: &[(b"u", number)],
            nets: 0,
            joins: &joins,
        };
        made.push(cell(alloc, &part)?)?;
    }
    made.push(cell(alloc, &plain(b"leaf", &[b"a"], &[]))?)?;
    Ok(made)
}

// A call for each level would pass the end of the stack here.
#[test]
fn deep_designs(rt: HostRuntime) -> Result<(), Fail> {
    let cells = chain(rt.alloc(), 100_000)?;
    let answer = answer_for(&rt, rt.alloc(), cells, 0, &[99_999], &[0, 0, 1, 2])?;
    assert_eq!(rt; answer, Answer::Flat(true));
    Ok(())
}

// Cells with so many nets, of which each but the first has two instances of the one before it.
fn tree(alloc: Global, nets: &[u32]) -> Result<Seq<HCell>, NoMemory> {
    let mut made = Seq::empty(alloc);
    let mut number: u32 = 0;
    for count in nets {
        let below = number.saturating_sub(1);
        let pair = [(b"u".as_slice(), below), (b"v", below)];
        let part = Part {
            name: b"c",
            ports: &[],
            uses: if number == 0 { &[] } else { &pair },
            nets: *count,
            joins: &[],
        };
        made.push(cell(alloc, &part)?)?;
        number = number.saturating_add(1);
    }
    Ok(made)
}

// The count of each level is one more than its nets and twice the count below it.
#[test]
fn flat_counts_at_the_limit(rt: HostRuntime) -> Result<(), Fail> {
    let within = [1, 1, 1, 0, 1, 0, 0, 0, 0, 1, 0, 0, 1, 0, 0, 0, 0, 0, 0, 1];
    let above = [1, 1, 1, 0, 1, 0, 0, 0, 0, 1, 0, 0, 1, 0, 0, 0, 0, 0, 0, 2];
    for (nets, top, wanted) in [
        (within.as_slice(), 19, Answer::Flat(false)),
        (above.as_slice(), 19, Answer::TooLarge(2_000_001)),
        ([0; 63].as_slice(), 62, Answer::TooLarge(u64::MAX / 2)),
        ([0; 65].as_slice(), 64, Answer::TooLarge(u64::MAX)),
    ] {
        let cells = tree(rt.alloc(), nets)?;
        let answer = answer_for(&rt, rt.alloc(), cells, top, &[], &[0, 1])?;
        assert_eq!(rt; answer, wanted);
    }
    Ok(())
}
