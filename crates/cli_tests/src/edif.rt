// The tests of `to-edif`.
use crate::netlist::Netlist;
use cli_runs::given::{Row, USAGE, answers, first_wrong, text_of};
use cli_runs::texts::{CHAINED, ESCAPED, LITERALS};
use std::alloc::Global;
use std::test::Fail;

const TO_EDIF: &[u8] = b"to-edif";

const TOP: &[u8] = b"--top";

const ZERO: &[u8] = b"--zero";

/// The file of this name with these cells, the last of which is the top of the design.
fn file_of(alloc: Global, name: &[u8], cells: &[u8]) -> Result<Vec<u8>, Fail> {
    text_of(
        alloc,
        &[
            b"(edif ",
            name,
            b"\n  (edifVersion 2 0 0)\n  (edifLevel 0)\n  (keywordMap (keywordLevel 0))\n  (library work\n    (edifLevel 0)\n    (technology (numberDefinition))\n",
            cells,
            b"  )\n  (design ",
            name,
            b" (cellRef ",
            name,
            b" (libraryRef work)))\n)\n",
        ],
    )
}

/// The cells of replications, concatenations, literals and a supply net.
const LITERAL_CELLS: &[u8] = b"    (cell GND
      (cellType GENERIC)
      (view netlist
        (viewType NETLIST)
        (interface
          (port G (direction OUTPUT))
        )
      )
    )
    (cell VCC
      (cellType GENERIC)
      (view netlist
        (viewType NETLIST)
        (interface
          (port P (direction OUTPUT))
        )
      )
    )
    (cell AND4
      (cellType GENERIC)
      (view netlist
        (viewType NETLIST)
        (interface
          (port (array (rename A \"A[3:0]\") 4) (direction INPUT))
          (port Y (direction OUTPUT))
        )
      )
    )
    (cell top
      (cellType GENERIC)
      (view netlist
        (viewType NETLIST)
        (interface
          (port (array (rename b \"b[1:0]\") 2) (direction INPUT))
          (port c (direction INPUT))
          (port y (direction OUTPUT))
          (port z (direction OUTPUT))
        )
        (contents
          (instance u
            (viewRef netlist (cellRef AND4 (libraryRef work)))
          )
          (instance v
            (viewRef netlist (cellRef AND4 (libraryRef work)))
          )
          (instance GND
            (viewRef netlist (cellRef GND (libraryRef work)))
          )
          (instance VCC
            (viewRef netlist (cellRef VCC (libraryRef work)))
          )
          (net (rename id0 \"b[1]\")
            (joined
              (portRef (member b 0))
              (portRef (member A 0) (instanceRef u))
              (portRef (member A 2) (instanceRef u))
            )
          )
          (net (rename id1 \"b[0]\")
            (joined
              (portRef (member b 1))
              (portRef (member A 1) (instanceRef u))
              (portRef (member A 3) (instanceRef u))
            )
          )
          (net c
            (joined
              (portRef c)
              (portRef (member A 0) (instanceRef v))
            )
          )
          (net y
            (joined
              (portRef y)
              (portRef Y (instanceRef u))
            )
          )
          (net z
            (joined
              (portRef z)
              (portRef Y (instanceRef v))
            )
          )
          (net g
            (joined
              (portRef (member A 1) (instanceRef v))
              (portRef G (instanceRef GND))
            )
          )
          (net net
            (joined
              (portRef (member A 2) (instanceRef v))
              (portRef P (instanceRef VCC))
            )
          )
        )
      )
    )
";

/// The cell of nets with attributes, each assigned from the one before.
const CHAINED_CELL: &[u8] = b"    (cell m
      (cellType GENERIC)
      (view netlist
        (viewType NETLIST)
        (interface
          (port a (direction INPUT))
          (port y (direction OUTPUT))
        )
        (contents
          (net p
            (joined
              (portRef a)
              (portRef y)
            )
            (property src (string \"f:2\"))
          )
        )
      )
    )
";

/// The cell of escaped names.
const ESCAPED_CELL: &[u8] = b"    (cell m
      (cellType GENERIC)
      (view netlist
        (viewType NETLIST)
        (interface
          (port (array (rename a \"a[1:0]\") 2) (direction INPUT))
          (port y (direction OUTPUT))
        )
        (contents
          (net wire
            (joined
              (portRef (member a 0))
              (portRef y)
            )
          )
        )
      )
    )
";

/// A module that is tied to zero.
const TIED: &[u8] = b"module m (output y); assign y = 1'b0; endmodule";

/// Its cells, where TIELO stands for the zero.
const TIED_CELLS: &[u8] = b"    (cell TIELO
      (cellType GENERIC)
      (view netlist
        (viewType NETLIST)
        (interface
          (port Y (direction OUTPUT))
        )
      )
    )
    (cell m
      (cellType GENERIC)
      (view netlist
        (viewType NETLIST)
        (interface
          (port y (direction OUTPUT))
        )
        (contents
          (instance TIELO
            (viewRef netlist (cellRef TIELO (libraryRef work)))
          )
          (net y
            (joined
              (portRef y)
              (portRef Y (instanceRef TIELO))
            )
          )
        )
      )
    )
";

/// A module with values of parameters, one of which an attribute has the name of.
const VALUES: &[u8] =
    b"module L (); endmodule module m (); (* INIT = \"old\" *) L #(.INIT(64'H00_08), .K(\"a\\\"b\")) u (); endmodule";

const VALUES_CELLS: &[u8] = b"    (cell L
      (cellType GENERIC)
      (view netlist
        (viewType NETLIST)
        (interface
        )
      )
    )
    (cell m
      (cellType GENERIC)
      (view netlist
        (viewType NETLIST)
        (interface
        )
        (contents
          (instance u
            (viewRef netlist (cellRef L (libraryRef work)))
            (property INIT (string \"64'h0008\"))
            (property K (string \"a%34%b\"))
          )
        )
      )
    )
";

/// A value of a parameter that a later statement passes over.
const PASSED: &[u8] =
    b"module L (); endmodule module m (); L #(.A(1)) u (); defparam u.A = 2; endmodule";

const PASSED_CELLS: &[u8] = b"    (cell L
      (cellType GENERIC)
      (view netlist
        (viewType NETLIST)
        (interface
        )
      )
    )
    (cell m
      (cellType GENERIC)
      (view netlist
        (viewType NETLIST)
        (interface
        )
        (contents
          (instance u
            (viewRef netlist (cellRef L (libraryRef work)))
            (property A (integer 2))
          )
        )
      )
    )
";

#[test]
fn modules_are_translated(rt: HostRuntime) -> Result<(), Fail> {
    let m = b"m".as_slice();
    for (words, text, name, cells) in [
        (
            [TO_EDIF, TOP, b"top"].as_slice(),
            LITERALS,
            b"top".as_slice(),
            LITERAL_CELLS,
        ),
        (&[TO_EDIF, TOP, m], CHAINED, m, CHAINED_CELL),
        (&[TO_EDIF, TOP, m], ESCAPED, m, ESCAPED_CELL),
        (&[TO_EDIF, TOP, m, ZERO, b"TIELO.Y"], TIED, m, TIED_CELLS),
        (&[TO_EDIF, TOP, m], VALUES, m, VALUES_CELLS),
        (&[TO_EDIF, TOP, m], PASSED, m, PASSED_CELLS),
    ] {
        let output = file_of(rt.alloc(), name, cells)?;
        assert_eq!(rt;
            answers::<Netlist>(rt.alloc(), words, text, 0, output.as_slice(), b"")?,
            true
        );
    }
    Ok(())
}

/// A module with a port of two bits, and one that gives it fewer.
const NARROW: &[u8] =
    b"module s (input [1:0] A); endmodule module t (input x); s u (.A(x)); endmodule";

/// Modules that break a rule, texts that are none, and words that are no command.
const REFUSED: &[Row<'static>] = &[
    (
        &[TO_EDIF, TOP, b"r"],
        b"module r (); r u (); endmodule",
        2,
        b"",
        b"refused G16 \"r\" \"u\"\n",
    ),
    (
        &[TO_EDIF, TOP, b"t"],
        NARROW,
        2,
        b"",
        b"refused G8 \"t\" \"u\" \"A\"\n",
    ),
    (
        &[TO_EDIF, TOP, b"t"],
        b"module s (input [1:0] A); endmodule module t (input x); s u (.A('b1)); endmodule",
        2,
        b"",
        b"refused G13 \"t\" \"u\" \"A\"\n",
    ),
    (
        &[TO_EDIF, TOP, b"q"],
        NARROW,
        2,
        b"",
        b"refused G1 \"\" \"q\"\n",
    ),
    (
        &[TO_EDIF, TOP, b"m"],
        b"module L (); endmodule module m (); L #(.A(1)) u (); defparam w.A = 2; endmodule",
        2,
        b"",
        b"refused G17 \"m\" \"w\" \"A\"\n",
    ),
    (
        &[TO_EDIF, TOP, b"m"],
        b"module m (",
        1,
        b"",
        b"fault 1:11 EndOfInput\n",
    ),
    (&[TO_EDIF, TOP], NARROW, 5, b"", USAGE),
    (&[TO_EDIF, ZERO, b"A.B"], NARROW, 5, b"", USAGE),
    (&[TO_EDIF, TOP, b"t", ZERO, b"VCC.P"], NARROW, 5, b"", USAGE),
];

#[test]
fn rules_of_modules_come_first(rt: HostRuntime) -> Result<(), Fail> {
    assert_eq!(rt; first_wrong::<Netlist>(rt.alloc(), REFUSED)?, None);
    Ok(())
}
