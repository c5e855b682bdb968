// Modules, and the cells that are written for them.

/// The cell that is made for the zero.
pub const ZERO_CELL: &[u8] = b"    (cell GND
      (cellType GENERIC)
      (view netlist
        (viewType NETLIST)
        (interface
          (port G (direction OUTPUT))
        )
      )
    )
";

/// The cell that is made for the one.
pub const ONE_CELL: &[u8] = b"    (cell VCC
      (cellType GENERIC)
      (view netlist
        (viewType NETLIST)
        (interface
          (port P (direction OUTPUT))
        )
      )
    )
";

/// A replication, and a concatenation with a supply net and a literal.
pub const LITERALS: &[u8] = b"module AND4 (input [3:0] A, output Y); endmodule
module top (input [1:0] b, input c, output y, output z);
  supply0 g;
  AND4 u (.A({2{b[1:0]}}), .Y(y));
  AND4 v (.A({{c, g}, 2 'b 1x}), .Y(z));
endmodule
";

/// Their cells, behind those of the constants.
pub const LITERALS_CELLS: &[u8] = b"    (cell AND4
      (cellType GENERIC)
      (view netlist
        (viewType NETLIST)
        (interface
          (port (array (rename A \"A[3:0]\") 4) (direction INPUT))
          (port Y (direction OUTPUT))
        )
      )
    )
    (cell top
      (cellType GENERIC)
      (view netlist
        (viewType NETLIST)
        (interface
          (port (array (rename b \"b[1:0]\") 2) (direction INPUT))
          (port c (direction INPUT))
          (port y (direction OUTPUT))
          (port z (direction OUTPUT))
        )
        (contents
          (instance u
            (viewRef netlist (cellRef AND4 (libraryRef work)))
          )
          (instance v
            (viewRef netlist (cellRef AND4 (libraryRef work)))
          )
          (instance GND
            (viewRef netlist (cellRef GND (libraryRef work)))
          )
          (instance VCC
            (viewRef netlist (cellRef VCC (libraryRef work)))
          )
          (net (rename id0 \"b[1]\")
            (joined
              (portRef (member b 0))
              (portRef (member A 0) (instanceRef u))
              (portRef (member A 2) (instanceRef u))
            )
          )
          (net (rename id1 \"b[0]\")
            (joined
              (portRef (member b 1))
              (portRef (member A 1) (instanceRef u))
              (portRef (member A 3) (instanceRef u))
            )
          )
          (net c
            (joined
              (portRef c)
              (portRef (member A 0) (instanceRef v))
            )
          )
          (net y
            (joined
              (portRef y)
              (portRef Y (instanceRef u))
            )
          )
          (net z
            (joined
              (portRef z)
              (portRef Y (instanceRef v))
            )
          )
          (net g
            (joined
              (portRef (member A 1) (instanceRef v))
              (portRef G (instanceRef GND))
            )
          )
          (net net
            (joined
              (portRef (member A 2) (instanceRef v))
              (portRef P (instanceRef VCC))
            )
          )
        )
      )
    )
";

/// Nets with attributes, each assigned from the one before.
pub const CHAINED: &[u8] =
    b"module m (input a, output y); (* src = \"f:1\" *) wire p; (* src = \"f:2\" *) wire q; assign p = a; assign q = p; assign y = q; endmodule";

/// One net, with the last property.
pub const CHAINED_CELLS: &[u8] = b"    (cell m
      (cellType GENERIC)
      (view netlist
        (viewType NETLIST)
        (interface
          (port a (direction INPUT))
          (port y (direction OUTPUT))
        )
        (contents
          (net p
            (joined
              (portRef a)
              (portRef y)
            )
            (property src (string \"f:2\"))
          )
        )
      )
    )
";

/// Escaped names, of which one needs no escape.
pub const ESCAPED: &[u8] = b"module m (input [1:0] a, output y);
  wire \\a[0] , \\wire , cpu;
  assign \\a[0]  = a[0];
  assign \\wire  = \\cpu ;
  assign cpu = a[1], y = \\wire ;
endmodule
";

/// One net: the other one has no second member.
pub const ESCAPED_CELLS: &[u8] = b"    (cell m
      (cellType GENERIC)
      (view netlist
        (viewType NETLIST)
        (interface
          (port (array (rename a \"a[1:0]\") 2) (direction INPUT))
          (port y (direction OUTPUT))
        )
        (contents
          (net wire
            (joined
              (portRef (member a 0))
              (portRef y)
            )
          )
        )
      )
    )
";

/// Nets of several bits with attributes, joined with one of one bit.
pub const MERGED: &[u8] = b"module m (output y, output z);
  (* a = 1, b = 1 *) wire p;
  (* b = 2, a = \"x\" *) wire [1:0] v;
  assign {y, z} = v;
  assign p = v[1];
endmodule
";

/// Each name of a property stands once, with its last value.
pub const MERGED_CELLS: &[u8] = b"    (cell m
      (cellType GENERIC)
      (view netlist
        (viewType NETLIST)
        (interface
          (port y (direction OUTPUT))
          (port z (direction OUTPUT))
        )
        (contents
          (net p
            (joined
              (portRef y)
            )
            (property b (integer 2))
            (property a (string \"x\"))
          )
          (net (rename id0 \"v[0]\")
            (joined
              (portRef z)
            )
            (property b (integer 2))
            (property a (string \"x\"))
          )
        )
      )
    )
";

/// Ranges in both directions, and an implicit net.
pub const VECTORS: &[u8] = b"module B (input [0:1] I, inout O); endmodule
module m (input [1:0] a, inout y);
  wire [2:1] p;
  assign p = a;
  B u (.I({p[1], w}), .O(w)), v (.I(p), .O(y));
endmodule
";

/// A net is named after its first net, else its first port bit.
pub const VECTORS_CELLS: &[u8] = b"    (cell B
      (cellType GENERIC)
      (view netlist
        (viewType NETLIST)
        (interface
          (port (array (rename I \"I[0:1]\") 2) (direction INPUT))
          (port O (direction INOUT))
        )
      )
    )
    (cell m
      (cellType GENERIC)
      (view netlist
        (viewType NETLIST)
        (interface
          (port (array (rename a \"a[1:0]\") 2) (direction INPUT))
          (port y (direction INOUT))
        )
        (contents
          (instance u
            (viewRef netlist (cellRef B (libraryRef work)))
          )
          (instance v
            (viewRef netlist (cellRef B (libraryRef work)))
          )
          (net (rename id0 \"p[2]\")
            (joined
              (portRef (member a 0))
              (portRef (member I 0) (instanceRef v))
            )
          )
          (net (rename id1 \"p[1]\")
            (joined
              (portRef (member a 1))
              (portRef (member I 0) (instanceRef u))
              (portRef (member I 1) (instanceRef v))
            )
          )
          (net y
            (joined
              (portRef y)
              (portRef O (instanceRef v))
            )
          )
          (net w
            (joined
              (portRef (member I 1) (instanceRef u))
              (portRef O (instanceRef u))
            )
          )
        )
      )
    )
";

/// Pins on constants alone, and wires with one pin, with an attribute and without.
pub const NAMELESS: &[u8] = b"module L (input I, output O); endmodule
module m ();
  wire p;
  (* k *) wire q;
  L u (.I(p), .O(q)), GND (.I(1'b1)), w (.I(1'b0));
endmodule
";

/// Their cells, behind those of the constants.
pub const NAMELESS_CELLS: &[u8] = b"    (cell L
      (cellType GENERIC)
      (view netlist
        (viewType NETLIST)
        (interface
          (port I (direction INPUT))
          (port O (direction OUTPUT))
        )
      )
    )
    (cell m
      (cellType GENERIC)
      (view netlist
        (viewType NETLIST)
        (interface
        )
        (contents
          (instance u
            (viewRef netlist (cellRef L (libraryRef work)))
          )
          (instance GND
            (viewRef netlist (cellRef L (libraryRef work)))
          )
          (instance w
            (viewRef netlist (cellRef L (libraryRef work)))
          )
          (instance GND0
            (viewRef netlist (cellRef GND (libraryRef work)))
          )
          (instance VCC
            (viewRef netlist (cellRef VCC (libraryRef work)))
          )
          (net q
            (joined
              (portRef O (instanceRef u))
            )
            (property k (integer 1))
          )
          (net net
            (joined
              (portRef I (instanceRef GND))
              (portRef P (instanceRef VCC))
            )
          )
          (net (rename id0 \"net\")
            (joined
              (portRef I (instanceRef w))
              (portRef G (instanceRef GND0))
            )
          )
        )
      )
    )
";

/// A wire that joins the constants.
pub const SHORTED: &[u8] = b"module m (); wire x; assign x = 1'b0, x = 1'b1; endmodule";

/// Its cell, behind those of the constants.
pub const SHORTED_CELLS: &[u8] = b"    (cell m
      (cellType GENERIC)
      (view netlist
        (viewType NETLIST)
        (interface
        )
        (contents
          (instance GND
            (viewRef netlist (cellRef GND (libraryRef work)))
          )
          (instance VCC
            (viewRef netlist (cellRef VCC (libraryRef work)))
          )
          (net x
            (joined
              (portRef G (instanceRef GND))
              (portRef P (instanceRef VCC))
            )
          )
        )
      )
    )
";
