// A cell of 300,000 instances, each joined to the next by a net of its own.
use net_bits::Names;
use net_hier::{HCell, HInst, HNet, HPort, Hier, Join, Node, cells_fit};
use nl_base::{Dir, NoMemory, Seq, Text};
use nl_io::CountSink;
use std::alloc::Global;
use std::test::Fail;
use to_verilog::to_verilog;
use vlog_values::VlogFile;
use vlog_writer::write_vlog;

/// How many instances the cell has.
const COUNT: u32 = 300_000;

fn port(alloc: Global, name: &[u8], dir: Dir) -> Result<HPort, NoMemory> {
    let name = Text::copy(alloc, name)?;
    Ok(HPort {
        name,
        range: None,
        dir,
        props: Seq::empty(alloc),
    })
}

/// The cell that is instantiated.
fn inverter(alloc: Global) -> Result<HCell, NoMemory> {
    let name = Text::copy(alloc, b"INV")?;
    let mut ports = Seq::empty(alloc);
    ports.push(port(alloc, b"I", Dir::Input)?)?;
    ports.push(port(alloc, b"O", Dir::Output)?)?;
    Ok(HCell {
        name,
        ports,
        instances: Seq::empty(alloc),
        nets: Seq::empty(alloc),
        joins: Seq::empty(alloc),
        props: Seq::empty(alloc),
    })
}

/// The instances `i0`, `i1` and so on, so many.
fn instances(alloc: Global, count: u32) -> Result<Seq<HInst>, NoMemory> {
    let mut made = Seq::empty(alloc);
    for number in 0..count {
        let name = format!(in alloc; "i{number}")?;
        made.push(HInst {
            name: Text::copy(alloc, name.as_bytes())?,
            cell: 0,
            props: Seq::empty(alloc),
        })?;
    }
    Ok(made)
}

/// The nets `n0`, `n1` and so on, so many.
fn nets(alloc: Global, count: u32) -> Result<Seq<HNet>, NoMemory> {
    let mut made = Seq::empty(alloc);
    for number in 0..count {
        let name = format!(in alloc; "n{number}")?;
        made.push(HNet {
            name: Text::copy(alloc, name.as_bytes())?,
            props: Seq::empty(alloc),
        })?;
    }
    Ok(made)
}

fn pin(instance: u32, port: u32) -> Node {
    Node::Pin {
        instance,
        port,
        bit: 0,
    }
}

/// Each of so many nets is joined to the output of its instance and to the input of the next one.
fn joins(alloc: Global, count: u32) -> Result<Seq<Join>, NoMemory> {
    let mut made = Seq::empty(alloc);
    for number in 0..count {
        made.push(Join {
            a: Node::Net(number),
            b: pin(number, 1),
        })?;
        made.push(Join {
            a: Node::Net(number),
            b: pin(number + 1, 0),
        })?;
    }
    Ok(made)
}

fn chain(alloc: Global) -> Result<HCell, NoMemory> {
    Ok(HCell {
        name: Text::copy(alloc, b"top")?,
        ports: Seq::empty(alloc),
        instances: instances(alloc, COUNT)?,
        nets: nets(alloc, COUNT - 1)?,
        joins: joins(alloc, COUNT - 1)?,
        props: Seq::empty(alloc),
    })
}

fn cells(alloc: Global) -> Result<Seq<HCell>, NoMemory> {
    let mut made = Seq::empty(alloc);
    made.push(inverter(alloc)?)?;
    made.push(chain(alloc)?)?;
    Ok(made)
}

fn design(alloc: Global) -> Result<Option<Hier>, NoMemory> {
    let cells = cells(alloc)?;
    if !cells_fit(alloc, &cells, 1)? {
        return Ok(None);
    }
    match Hier::build(alloc, cells, 1, Seq::empty(alloc)) {
        Ok(hier) => Ok(Some(hier)),
        Err(_) => Ok(None),
    }
}

/// How many items the module of the top has, and how many bytes the file is written in.
fn sizes_of(file: &VlogFile) -> (usize, u64) {
    let items = match file.modules.items() {
        [_, top] => top.items.len(),
        _ => 0,
    };
    let mut sink = CountSink::new();
    match write_vlog(file, &mut sink) {
        Ok(()) => (items, sink.total()),
        Err(_) => (items, 0),
    }
}

/// The same of the file that the design is translated to.
fn translated(alloc: Global, hier: &Hier) -> Option<(usize, u64)> {
    match to_verilog(alloc, hier, &Names::new(alloc, false)) {
        Ok(file) => Some(sizes_of(&file)),
        Err(_) => None,
    }
}

// A scan of all joins for each class would look at 180,000,000,000 of them.
#[test]
fn many_instances_are_translated(rt: HostRuntime) -> Result<(), Fail> {
    let answer = match design(rt.alloc())? {
        Some(hier) => translated(rt.alloc(), &hier),
        None => None,
    };
    assert!(rt; answer == Some((599_999, 16_955_603)));
    Ok(())
}
