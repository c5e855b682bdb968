// The tests of `check --top` on Verilog.
use crate::netlist::Netlist;
use cli_runs::given::{CHECK_M, Row, answers, first_wrong};
use std::alloc::Global;
use std::test::Fail;

/// Files of modules that break a rule, or none.
const CHECKED: &[Row<'static>] = &[
    (
        CHECK_M,
        b"module B (input I); endmodule module m (); B u (.I(w)); endmodule",
        0,
        b"ok\n",
        b"",
    ),
    (
        CHECK_M,
        b"module B (input I); endmodule module m (); B u (), v (); endmodule",
        0,
        b"ok\n",
        b"",
    ),
    (
        CHECK_M,
        b"module B (input I); endmodule module m (input [1:0] a); B u (.I(a[0])), v (a[1]); endmodule",
        0,
        b"ok\n",
        b"",
    ),
    (
        CHECK_M,
        b"module L (); endmodule module m (); L #(.A(1)) u (); defparam u.A = 2; endmodule",
        0,
        b"ok\n",
        b"",
    ),
    (
        CHECK_M,
        b"module m (output [1:0] y); assign y = {2{1'b1}}; supply0 g; endmodule",
        0,
        b"ok\n",
        b"",
    ),
    (
        CHECK_M,
        b"module m (); endmodule module n (); x u (); n v (); endmodule",
        0,
        b"ok\n",
        b"",
    ),
    (
        CHECK_M,
        b"module n (input a); endmodule module m (); n u ({1'b1, {0{{4294967296{{4294967296{1'b0}}}}}}}); endmodule",
        0,
        b"ok\n",
        b"",
    ),
    (
        CHECK_M,
        b"module n (); endmodule",
        2,
        b"",
        b"refused G1 \"\" \"m\"\n",
    ),
    (
        CHECK_M,
        b"module m (); endmodule module n (); endmodule module n (); endmodule",
        2,
        b"",
        b"refused G2 \"\" \"n\"\n",
    ),
    (
        CHECK_M,
        b"module m (); x u (); endmodule",
        2,
        b"",
        b"refused G3 \"m\" \"u\" \"x\"\n",
    ),
    (
        CHECK_M,
        b"module m (a, a); input a; endmodule",
        2,
        b"",
        b"refused G4 \"m\" \"a\"\n",
    ),
    (
        CHECK_M,
        b"module m (a); endmodule",
        2,
        b"",
        b"refused G5 \"m\" \"a\"\n",
    ),
    (
        CHECK_M,
        b"`default_nettype none\nmodule B (input I); endmodule module m (); B u (.I(w)); endmodule",
        2,
        b"",
        b"refused G6 \"m\" \"w\"\n",
    ),
    (
        CHECK_M,
        b"module B (input I); endmodule module m (input [1:0] a); B u (.I(a[2])); endmodule",
        2,
        b"",
        b"refused G7 \"m\" \"a\"\n",
    ),
    (
        CHECK_M,
        b"module B (input [1:0] I); endmodule module m (input [1:0] a); B u (.I(a[0:1])); endmodule",
        2,
        b"",
        b"refused G7 \"m\" \"a\"\n",
    ),
    (
        CHECK_M,
        b"module s (input [1:0] A); endmodule module m (input x); s u (.A(x)); endmodule",
        2,
        b"",
        b"refused G8 \"m\" \"u\" \"A\"\n",
    ),
    (
        CHECK_M,
        b"module B (); endmodule module m (input a); B u (.I(a)); endmodule",
        2,
        b"",
        b"refused G9 \"m\" \"u\" \"I\"\n",
    ),
    (
        CHECK_M,
        b"module B (input I); endmodule module m (input a); B u (.I(a), .I(a)); endmodule",
        2,
        b"",
        b"refused G10 \"m\" \"u\" \"I\"\n",
    ),
    (
        CHECK_M,
        b"module B (input I); endmodule module m (input a); B u (a, a); endmodule",
        2,
        b"",
        b"refused G11 \"m\" \"u\"\n",
    ),
    (
        CHECK_M,
        b"module m (); wire [65536:0] w; endmodule",
        2,
        b"",
        b"refused G12 \"m\" \"w\"\n",
    ),
    (
        CHECK_M,
        b"module s (input [1:0] A); endmodule module m (input x); s u (.A('b1)); endmodule",
        2,
        b"",
        b"refused G13 \"m\" \"u\" \"A\"\n",
    ),
    (
        CHECK_M,
        b"module L (); endmodule module m (); L #(.A(1), .A(2)) u (); endmodule",
        2,
        b"",
        b"refused G14 \"m\" \"u\" \"A\"\n",
    ),
    (
        CHECK_M,
        b"module m (a); input [1:0] a; wire a; endmodule",
        2,
        b"",
        b"refused G15 \"m\" \"a\"\n",
    ),
    (
        CHECK_M,
        b"module m (); m u (); endmodule",
        2,
        b"",
        b"refused G16 \"m\" \"u\"\n",
    ),
    (
        CHECK_M,
        b"module L (); endmodule module m (); L #(.A(1)) u (); defparam w.A = 2; endmodule",
        2,
        b"",
        b"refused G17 \"m\" \"w\" \"A\"\n",
    ),
];

#[test]
fn files_of_modules_are_checked(rt: HostRuntime) -> Result<(), Fail> {
    assert_eq!(rt; first_wrong::<Netlist>(rt.alloc(), CHECKED)?, None);
    Ok(())
}

/// A module that assigns as many bits x to a port of 65,536 bits that stands a thousand times on the left.
fn module_of_unknown_bits(alloc: Global) -> Result<Vec<u8>, Fail> {
    let mut text = Vec::from_slice(alloc, b"module m (output [65535:0] a); assign {a")?;
    for _i in 1..1000 {
        text.extend_from_slice(b", a")?;
    }
    text.extend_from_slice(b"} = {65536000{1'bx}}; endmodule")?;
    Ok(text)
}

#[test]
fn bits_may_be_many(rt: HostRuntime) -> Result<(), Fail> {
    let text = module_of_unknown_bits(rt.alloc())?;
    assert_eq!(rt;
        answers::<Netlist>(rt.alloc(), CHECK_M, text.as_slice(), 0, b"ok\n", b"")?,
        true
    );
    Ok(())
}
