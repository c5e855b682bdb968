// The tests of `report` and `lint`.
use crate::netlist::Netlist;
use cli_runs::designs::{DesignRow, ENDS, INPUTS, INV, UP_TO_CELLS, design_of, first_wrong_design};
use cli_runs::given::{
    Given, Row, add_number, answers, ends_so, first_wrong, given_plainly, text_of, wanted_of,
};
use std::alloc::Global;
use std::test::Fail;

/// A cell that joins its two ports, and one with an instance of INV behind ports of its own.
pub const FEED_AND_BOX: &[u8] =
    b"(cell feed(cellType GENERIC)(view v(viewType NETLIST)(interface(port a(direction INPUT))(port y(direction OUTPUT)))(contents(net n(joined(portRef a)(portRef y))))))(cell box(cellType GENERIC)(view v(viewType NETLIST)(interface(port I(direction INPUT))(port O(direction OUTPUT)))(contents(instance i(viewRef v(cellRef INV)))(net I(joined(portRef I)(portRef I(instanceRef i))))(net O(joined(portRef O)(portRef O(instanceRef i)))))))";

/// Cells that may stand for the constants, and one that is joined to both.
const TIED: &[u8] =
    b"(cell LO(cellType GENERIC)(view v(viewType NETLIST)(interface(port Z(direction OUTPUT)))))(cell VCC(cellType GENERIC)(view v(viewType NETLIST)(interface(port P(direction OUTPUT)))))(cell B(cellType GENERIC)(view v(viewType NETLIST)(interface(port(array(rename D \"D[1:0]\")2)(direction INPUT)))))";

/// Instances of these, whose pins are joined.
const TIES: &[u8] =
    b"(instance l(viewRef v(cellRef LO)))(instance h(viewRef v(cellRef VCC)))(instance(rename b \"b c\")(viewRef v(cellRef B)))(net n(joined(portRef Z(instanceRef l))(portRef(member D 0)(instanceRef b))))(net m(joined(portRef P(instanceRef h))(portRef(member D 1)(instanceRef b))))";

/// Instances of these, one behind the other.
pub const LEVELS: &[u8] =
    b"(instance f(viewRef v(cellRef feed)))(instance b(viewRef v(cellRef box)))(net n1(joined(portRef a)(portRef a(instanceRef f))))(net n2(joined(portRef y(instanceRef f))(portRef I(instanceRef b))))(net n3(joined(portRef O(instanceRef b))(portRef y)))";

/// Reports and findings of designs.
const DESIGNS: &[DesignRow<'static>] = &[
    (
        &[b"report"],
        &[INV],
        INPUTS,
        b"(net n(joined(portRef a)(portRef b)))",
        0,
        b"design \"top\"\nleaves 0\nnets 1\nnet\n  port \"a\"\n  port \"b\"\n",
        b"",
    ),
    (
        &[b"report"],
        &[INV],
        INPUTS,
        b"(net n(joined))",
        0,
        b"design \"top\"\nleaves 1\nleaf . \"top\"\nnets 0\n",
        b"",
    ),
    (
        &[b"report"],
        &[INV, FEED_AND_BOX],
        ENDS,
        LEVELS,
        0,
        b"design \"top\"\nleaves 1\nleaf \"b\"/\"i\" \"INV\"\nnets 2\nnet\n  port \"a\"\n  pin \"b\"/\"i\" \"I\"\nnet\n  port \"y\"\n  pin \"b\"/\"i\" \"O\"\n",
        b"",
    ),
    (
        &[b"report"],
        &[INV, TIED],
        b"",
        TIES,
        0,
        b"design \"top\"\nleaves 2\nleaf \"l\" \"LO\"\nleaf \"b c\" \"B\"\nnets 2\nnet\n  pin \"l\" \"Z\"\n  pin \"b c\" \"D\" 1\nnet\n  pin \"b c\" \"D\" 0\n  one\n",
        b"",
    ),
    (
        &[b"report", b"--zero", b"LO.Z"],
        &[INV, TIED],
        b"",
        TIES,
        0,
        b"design \"top\"\nleaves 1\nleaf \"b c\" \"B\"\nnets 2\nnet\n  pin \"b c\" \"D\" 1\n  zero\nnet\n  pin \"b c\" \"D\" 0\n  one\n",
        b"",
    ),
    (
        &[b"report", b"--zero", b"VCC.P", b"--one", b"LO.Z"],
        &[INV, TIED],
        b"",
        TIES,
        0,
        b"design \"top\"\nleaves 1\nleaf \"b c\" \"B\"\nnets 2\nnet\n  pin \"b c\" \"D\" 1\n  one\nnet\n  pin \"b c\" \"D\" 0\n  zero\n",
        b"",
    ),
    (
        &[b"lint"],
        &[INV],
        b"(port a(direction INPUT))(port y(direction OUTPUT))(port z(direction OUTPUT))",
        b"(instance u(viewRef v(cellRef INV)))(instance v(viewRef v(cellRef INV)))(net n1(joined(portRef a)(portRef O(instanceRef u))))(net n2(joined(portRef y)(portRef I(instanceRef v))))",
        0,
        b"design \"top\"\nundriven 2\n  port \"y\"\n  pin \"v\" \"I\"\nfloating 2\n  port \"z\"\n  pin \"u\" \"I\"\nseveral 1\nnet\n  port \"a\"\n  pin \"u\" \"O\"\n",
        b"",
    ),
    (
        &[b"lint"],
        &[INV, FEED_AND_BOX],
        ENDS,
        LEVELS,
        0,
        b"design \"top\"\nundriven 0\nfloating 0\nseveral 0\n",
        b"",
    ),
];

#[test]
fn designs_are_told(rt: HostRuntime) -> Result<(), Fail> {
    assert_eq!(rt; first_wrong_design::<Netlist>(rt.alloc(), DESIGNS)?, None);
    Ok(())
}

/// A buffer and a module above it that ties one of its inputs.
const MODULES: &[u8] =
    b"module B (input [1:0] D, output O); endmodule module m (input a, output y); wire n; B u (.D({a, 1'b0}), .O(n)); assign y = n; endmodule";

/// Reports of these.
const FILES: &[Row<'static>] = &[
    (
        &[b"report", b"--top", b"m"],
        MODULES,
        0,
        b"design \"m\"\nleaves 1\nleaf \"u\" \"B\"\nnets 3\nnet\n  port \"a\"\n  pin \"u\" \"D\" 1\nnet\n  port \"y\"\n  pin \"u\" \"O\"\nnet\n  pin \"u\" \"D\" 0\n  zero\n",
        b"",
    ),
    (
        &[b"report", b"--top", b"B"],
        MODULES,
        0,
        b"design \"B\"\nleaves 1\nleaf . \"B\"\nnets 0\n",
        b"",
    ),
    (
        &[b"report", b"--top", b"n"],
        MODULES,
        2,
        b"",
        b"refused G1 \"\" \"n\"\n",
    ),
    (&[b"report"], MODULES, 1, b"", b"fault 1:1 Unexpected\n"),
];

#[test]
fn modules_are_told(rt: HostRuntime) -> Result<(), Fail> {
    assert_eq!(rt; first_wrong::<Netlist>(rt.alloc(), FILES)?, None);
    Ok(())
}

/// Adds the cell of this number: its interface, and two instances of the cell before it, with what is behind them.
fn add_level(text: &mut Vec<u8>, number: u64, interface: &[u8], behind: &[u8]) -> Result<(), Fail> {
    text.extend_from_slice(b"(cell c")?;
    add_number(text, number)?;
    text.extend_from_slice(b"(cellType GENERIC)(view v(viewType NETLIST)(interface")?;
    text.extend_from_slice(interface)?;
    text.extend_from_slice(b")")?;
    if number > 0 {
        text.extend_from_slice(b"(contents(instance a(viewRef v(cellRef c")?;
        add_number(text, number - 1)?;
        text.extend_from_slice(b")))(instance b(viewRef v(cellRef c")?;
        add_number(text, number - 1)?;
        text.extend_from_slice(b")))")?;
        text.extend_from_slice(behind)?;
        text.extend_from_slice(b")")?;
    }
    text.extend_from_slice(b"))")?;
    Ok(())
}

/// A file of 40 cells with this interface, each but the first with two instances of the one before, and with these nets.
fn chain_of(alloc: Global, interface: &[u8], nets: &[u8]) -> Result<Vec<u8>, Fail> {
    let mut text = text_of(alloc, &[UP_TO_CELLS])?;
    for number in 0..40 {
        add_level(&mut text, number, interface, nets)?;
    }
    text.extend_from_slice(b")(design t(cellRef c39(libraryRef w))))")?;
    Ok(text)
}

#[test]
fn flat_designs_have_a_limit(rt: HostRuntime) -> Result<(), Fail> {
    for (interface, nets, line) in [
        (
            b"(port i(direction INPUT))(port o(direction OUTPUT))".as_slice(),
            b"(net i(joined(portRef i)(portRef i(instanceRef a))))(net m(joined(portRef o(instanceRef a))(portRef i(instanceRef b))))(net o(joined(portRef o(instanceRef b))(portRef o)))".as_slice(),
            b"limit flat 4947802324986\n".as_slice(),
        ),
        (b"", b"", b"limit flat 1099511627775\n"),
    ] {
        let text = chain_of(rt.alloc(), interface, nets)?;
        assert_eq!(rt;
            answers::<Netlist>(rt.alloc(), &[b"report"], text.as_slice(), 7, b"", line)?,
            true
        );
        assert_eq!(rt;
            answers::<Netlist>(rt.alloc(), &[b"flatten"], text.as_slice(), 7, b"", line)?,
            true
        );
    }
    Ok(())
}

/// The number of instances of the long chain.
const MANY: u64 = 300_000;

/// A file whose top has so many instances of INV, each joined to the next.
fn many_instances(alloc: Global) -> Result<Vec<u8>, Fail> {
    let mut contents = Vec::new(alloc);
    for number in 0..MANY {
        contents.extend_from_slice(b"(instance i")?;
        add_number(&mut contents, number)?;
        contents.extend_from_slice(b"(viewRef v(cellRef INV)))")?;
    }
    for number in 1..MANY {
        contents.extend_from_slice(b"(net n")?;
        add_number(&mut contents, number)?;
        contents.extend_from_slice(b"(joined(portRef O(instanceRef i")?;
        add_number(&mut contents, number - 1)?;
        contents.extend_from_slice(b"))(portRef I(instanceRef i")?;
        add_number(&mut contents, number)?;
        contents.extend_from_slice(b"))))")?;
    }
    design_of(alloc, INV, b"", contents.as_slice())
}

/// The report of that file.
fn many_reported(alloc: Global) -> Result<Vec<u8>, Fail> {
    let mut text = text_of(alloc, &[b"design \"top\"\nleaves 300000\n"])?;
    for number in 0..MANY {
        text.extend_from_slice(b"leaf \"i")?;
        add_number(&mut text, number)?;
        text.extend_from_slice(b"\" \"INV\"\n")?;
    }
    text.extend_from_slice(b"nets 299999\n")?;
    for number in 1..MANY {
        text.extend_from_slice(b"net\n  pin \"i")?;
        add_number(&mut text, number - 1)?;
        text.extend_from_slice(b"\" \"O\"\n  pin \"i")?;
        add_number(&mut text, number)?;
        text.extend_from_slice(b"\" \"I\"\n")?;
    }
    Ok(text)
}

#[test]
fn many_instances_are_reported(rt: HostRuntime) -> Result<(), Fail> {
    let text = many_instances(rt.alloc())?;
    let output = many_reported(rt.alloc())?;
    let given = Given {
        room: output.len(),
        ..given_plainly(&[b"report"], text.as_slice())
    };
    let wanted = wanted_of(&given, 0, output.as_slice(), b"");
    assert_eq!(rt; ends_so::<Netlist>(rt.alloc(), &given, &wanted)?, true);
    Ok(())
}
