// Rows of names that cannot be written, and the rules that they break.
use net_bits::Names;
use net_hier::{BuildFault, HCell, HInst, HPort, HProp, Hier, cells_fit};
use nl_base::{Dir, NoMemory, PropValue, Rule, Seq, Text};
use std::alloc::Global;
use std::test::Fail;
use to_verilog_rules::first_refusal;

/// What the names of a design are: of its leaf, of the port, the instance and the instance's property in its top, and of its own property.
#[derive(Clone, Copy)]
struct Row {
    leaf: &'static [u8],
    port: &'static [u8],
    instance: &'static [u8],
    property: &'static [u8],
    of_design: &'static [u8],
    rule: Option<Rule>,
}

const GOOD: Row = Row {
    leaf: b"L",
    port: b"p",
    instance: b"u",
    property: b"INIT",
    of_design: b"part",
    rule: None,
};

fn props(alloc: Global, name: &[u8]) -> Result<Seq<HProp>, NoMemory> {
    let name = Text::copy(alloc, name)?;
    let mut made = Seq::empty(alloc);
    made.push(HProp {
        name,
        value: PropValue::Flag(true),
    })?;
    Ok(made)
}

fn ports(alloc: Global, name: &[u8]) -> Result<Seq<HPort>, NoMemory> {
    let name = Text::copy(alloc, name)?;
    let mut made = Seq::empty(alloc);
    made.push(HPort {
        name,
        range: None,
        dir: Dir::Input,
        props: Seq::empty(alloc),
    })?;
    Ok(made)
}

// An instance of the leaf.
fn instance(alloc: Global, name: &[u8], property: &[u8]) -> Result<HInst, NoMemory> {
    let name = Text::copy(alloc, name)?;
    let props = props(alloc, property)?;
    Ok(HInst {
        name,
        cell: 0,
        props,
    })
}

fn cell(
    alloc: Global,
    name: &[u8],
    ports: Seq<HPort>,
    instances: Seq<HInst>,
) -> Result<HCell, NoMemory> {
    let name = Text::copy(alloc, name)?;
    Ok(HCell {
        name,
        ports,
        instances,
        nets: Seq::empty(alloc),
        joins: Seq::empty(alloc),
        props: Seq::empty(alloc),
    })
}

// The top, which has one port and one instance of the leaf.
fn top(alloc: Global, row: Row) -> Result<HCell, NoMemory> {
    let ports = ports(alloc, row.port)?;
    let mut instances = Seq::empty(alloc);
    instances.push(instance(alloc, row.instance, row.property)?)?;
    let made = cell(alloc, b"top", ports, instances)?;
    Ok(made)
}

fn cells(alloc: Global, row: Row) -> Result<Seq<HCell>, NoMemory> {
    let mut made = Seq::empty(alloc);
    made.push(cell(alloc, row.leaf, Seq::empty(alloc), Seq::empty(alloc))?)?;
    made.push(top(alloc, row)?)?;
    Ok(made)
}

// The rule that the design breaks, where the properties with this name are parameters.
fn asked(alloc: Global, hier: &Hier, param: &[u8]) -> Result<Option<Rule>, NoMemory> {
    let mut params = Names::new(alloc, false);
    params.add(alloc, param)?;
    match first_refusal(alloc, hier, &params) {
        Ok(None) => Ok(None),
        Ok(Some(refusal)) => Ok(Some(refusal.rule)),
        Err(fault) => Err(fault),
    }
}

// The same of a row; a rule of EDIF where it is no design.
fn broken(alloc: Global, row: Row, param: &[u8]) -> Result<Option<Rule>, NoMemory> {
    let cells = cells(alloc, row)?;
    if !cells_fit(alloc, &cells, 1)? {
        return Ok(Some(Rule::E1));
    }
    let props = props(alloc, row.of_design)?;
    match Hier::build(alloc, cells, 1, props) {
        Ok(hier) => asked(alloc, &hier, param),
        Err(BuildFault::NoMemory) => Err(NoMemory),
        Err(_) => Ok(Some(Rule::E1)),
    }
}

#[test]
fn names_break_rules(rt: HostRuntime) -> Result<(), Fail> {
    let alloc = rt.alloc();
    for row in [
        GOOD,
        Row {
            leaf: b"",
            rule: Some(Rule::V1),
            ..GOOD
        },
        Row {
            port: b"a b",
            rule: Some(Rule::V1),
            ..GOOD
        },
        Row {
            instance: b"my cell",
            rule: Some(Rule::V1),
            ..GOOD
        },
        Row {
            property: b"\x7f",
            rule: Some(Rule::V1),
            ..GOOD
        },
        Row {
            leaf: b"top",
            rule: Some(Rule::V2),
            ..GOOD
        },
        Row {
            instance: b"p",
            rule: Some(Rule::V3),
            ..GOOD
        },
        Row {
            of_design: b" ",
            rule: Some(Rule::V4),
            ..GOOD
        },
        Row {
            property: b"DONT_TOUCH",
            rule: Some(Rule::V5),
            ..GOOD
        },
    ] {
        assert!(rt; broken(alloc, row, b"DONT_TOUCH")? == row.rule);
    }
    Ok(())
}
