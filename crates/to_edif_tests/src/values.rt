// Modules, and the cells that are written for them: names, values of properties, and chosen cells of the constants.

/// Names that are no identifiers of EDIF, or are alike up to case.
pub const NAMES: &[u8] =
    b"module \\a$b (input \\x.y , input X, input x, input [1:0] \\p[0] , output _z); endmodule
module gnd (); endmodule
module m$ (input i);
  \\a$b u (.\\x.y (i), .x(1'b0)), U ();
  gnd _ ();
endmodule
";

/// Their cells, behind that of the zero.
pub const NAMES_CELLS: &[u8] = b"    (cell (rename id0 \"a$b\")
      (cellType GENERIC)
      (view netlist
        (viewType NETLIST)
        (interface
          (port (rename id0 \"x.y\") (direction INPUT))
          (port X (direction INPUT))
          (port (rename id1 \"x\") (direction INPUT))
          (port (array (rename id2 \"p[0][1:0]\") 2) (direction INPUT))
          (port (rename id3 \"_z\") (direction OUTPUT))
        )
      )
    )
    (cell (rename id1 \"gnd\")
      (cellType GENERIC)
      (view netlist
        (viewType NETLIST)
        (interface
        )
      )
    )
    (cell (rename id2 \"m$\")
      (cellType GENERIC)
      (view netlist
        (viewType NETLIST)
        (interface
          (port i (direction INPUT))
        )
        (contents
          (instance u
            (viewRef netlist (cellRef id0 (libraryRef work)))
          )
          (instance (rename id0 \"U\")
            (viewRef netlist (cellRef id0 (libraryRef work)))
          )
          (instance (rename id1 \"_\")
            (viewRef netlist (cellRef id1 (libraryRef work)))
          )
          (instance GND
            (viewRef netlist (cellRef GND (libraryRef work)))
          )
          (net i
            (joined
              (portRef i)
              (portRef id0 (instanceRef u))
            )
          )
          (net net
            (joined
              (portRef id1 (instanceRef u))
              (portRef G (instanceRef GND))
            )
          )
        )
      )
    )
";

/// Attributes of all kinds.
pub const ATTRIBUTES: &[u8] = b"(* s = \"a%b\", n = -7, r = 2.50, f = 1'b0, F = 01'B1, k *)
module m ((* p = 4'b1_0xz *) input a, (* q = \"1\", q = \"2\" *) output y);
endmodule
";

/// Their properties.
pub const ATTRIBUTES_CELLS: &[u8] = b"    (cell m
      (cellType GENERIC)
      (view netlist
        (viewType NETLIST)
        (interface
          (port a (direction INPUT) (property p (string \"4'b10xz\")))
          (port y (direction OUTPUT) (property q (string \"2\")))
        )
      )
      (property s (string \"a%37%b\"))
      (property n (integer -7))
      (property r (number (e 250 -2)))
      (property f (boolean (false)))
      (property (rename id0 \"F\") (boolean (true)))
      (property k (integer 1))
    )
";

/// Values of parameters, one of which an attribute has the name of.
pub const VALUES: &[u8] =
    b"module L (); endmodule module m (); (* INIT = \"old\" *) L #(.INIT(64'H00_08), .K(\"a\\\"b\")) u (); endmodule";

/// Their properties.
pub const VALUES_CELLS: &[u8] = b"    (cell L
      (cellType GENERIC)
      (view netlist
        (viewType NETLIST)
        (interface
        )
      )
    )
    (cell m
      (cellType GENERIC)
      (view netlist
        (viewType NETLIST)
        (interface
        )
        (contents
          (instance u
            (viewRef netlist (cellRef L (libraryRef work)))
            (property INIT (string \"64'h0008\"))
            (property K (string \"a%34%b\"))
          )
        )
      )
    )
";

/// A value of a parameter that a later statement passes over.
pub const PASSED: &[u8] =
    b"module L (); endmodule module m (); L #(.A(1)) u (); defparam u.A = 2; endmodule";

/// The last value alone.
pub const PASSED_CELLS: &[u8] = b"    (cell L
      (cellType GENERIC)
      (view netlist
        (viewType NETLIST)
        (interface
        )
      )
    )
    (cell m
      (cellType GENERIC)
      (view netlist
        (viewType NETLIST)
        (interface
        )
        (contents
          (instance u
            (viewRef netlist (cellRef L (libraryRef work)))
            (property A (integer 2))
          )
        )
      )
    )
";

/// Attributes, parameters and later values of two instances.
pub const PARAMETERS: &[u8] = b"module L (input I); endmodule
module m (input a);
  (* A = \"old\", loc = 'hF *) L #(.A(1'b1), .B(-2.5e1), .C(\"t\"), .D(8'shF_f)) u (.I(a)), v ();
  defparam u.A = 2'b10, v.E = 4, u.A = 3;
endmodule
";

/// Their properties, each at the place of its last value.
pub const PARAMETERS_CELLS: &[u8] = b"    (cell L
      (cellType GENERIC)
      (view netlist
        (viewType NETLIST)
        (interface
          (port I (direction INPUT))
        )
      )
    )
    (cell m
      (cellType GENERIC)
      (view netlist
        (viewType NETLIST)
        (interface
          (port a (direction INPUT))
        )
        (contents
          (instance u
            (viewRef netlist (cellRef L (libraryRef work)))
            (property loc (string \"'hF\"))
            (property B (number -25))
            (property C (string \"t\"))
            (property D (string \"8'shFf\"))
            (property A (integer 3))
          )
          (instance v
            (viewRef netlist (cellRef L (libraryRef work)))
            (property loc (string \"'hF\"))
            (property A (string \"1'b1\"))
            (property B (number -25))
            (property C (string \"t\"))
            (property D (string \"8'shFf\"))
            (property E (integer 4))
          )
          (net a
            (joined
              (portRef a)
              (portRef I (instanceRef u))
            )
          )
        )
      )
    )
";

/// A module that is tied to zero.
pub const TIED: &[u8] = b"module m (output y); assign y = 1'b0; endmodule";

/// Its cells, where TIELO stands for the zero.
pub const TIED_CELLS: &[u8] = b"    (cell TIELO
      (cellType GENERIC)
      (view netlist
        (viewType NETLIST)
        (interface
          (port Y (direction OUTPUT))
        )
      )
    )
    (cell m
      (cellType GENERIC)
      (view netlist
        (viewType NETLIST)
        (interface
          (port y (direction OUTPUT))
        )
        (contents
          (instance TIELO
            (viewRef netlist (cellRef TIELO (libraryRef work)))
          )
          (net y
            (joined
              (portRef y)
              (portRef Y (instanceRef TIELO))
            )
          )
        )
      )
    )
";

/// A module that is tied to zero and has an instance of a cell that may stand for it.
pub const REACHED: &[u8] =
    b"module TIELO (output Y); endmodule module m (output y, output z); TIELO t (.Y(z)); assign y = 1'b0; endmodule";

/// Its cells, where that one stands for the zero.
pub const REACHED_CELLS: &[u8] = b"    (cell TIELO
      (cellType GENERIC)
      (view netlist
        (viewType NETLIST)
        (interface
          (port Y (direction OUTPUT))
        )
      )
    )
    (cell m
      (cellType GENERIC)
      (view netlist
        (viewType NETLIST)
        (interface
          (port y (direction OUTPUT))
          (port z (direction OUTPUT))
        )
        (contents
          (instance t
            (viewRef netlist (cellRef TIELO (libraryRef work)))
          )
          (instance TIELO
            (viewRef netlist (cellRef TIELO (libraryRef work)))
          )
          (net y
            (joined
              (portRef y)
              (portRef Y (instanceRef TIELO))
            )
          )
          (net z
            (joined
              (portRef z)
              (portRef Y (instanceRef t))
            )
          )
        )
      )
    )
";

/// A module that is tied to both constants.
pub const PAIR: &[u8] = b"module m (output [1:0] y); assign y = 2'b01; endmodule";

/// Its cells, where others than the usual ones are made for the constants.
pub const PAIR_CELLS: &[u8] = b"    (cell (rename id0 \"t.lo\")
      (cellType GENERIC)
      (view netlist
        (viewType NETLIST)
        (interface
          (port (rename id0 \"0\") (direction OUTPUT))
        )
      )
    )
    (cell HI
      (cellType GENERIC)
      (view netlist
        (viewType NETLIST)
        (interface
          (port P (direction OUTPUT))
        )
      )
    )
    (cell m
      (cellType GENERIC)
      (view netlist
        (viewType NETLIST)
        (interface
          (port (array (rename y \"y[1:0]\") 2) (direction OUTPUT))
        )
        (contents
          (instance (rename id0 \"t.lo\")
            (viewRef netlist (cellRef id0 (libraryRef work)))
          )
          (instance HI
            (viewRef netlist (cellRef HI (libraryRef work)))
          )
          (net (rename id0 \"y[1]\")
            (joined
              (portRef (member y 0))
              (portRef id0 (instanceRef id0))
            )
          )
          (net (rename id1 \"y[0]\")
            (joined
              (portRef (member y 1))
              (portRef P (instanceRef HI))
            )
          )
        )
      )
    )
";
