// Texts that tests read, and what is written of them.

/// A file as a synthesis program writes it.
pub const BLINKER: &[u8] = b"(edif blinker
  (edifversion 2 0 0)
  (edifLevel 0)
  (keywordmap (keywordlevel 0))
(status
 (written
  (timeStamp 2024 03 01 09 05 00)
  (program \"Synth\" (version \"1.2\"))
  (comment \"Built on a Linux machine\")
 )
)
  (Library prims
    (edifLevel 0)
    (technology (numberDefinition ))
   (cell LUT1 (celltype GENERIC)
     (view netlist (viewtype NETLIST)
       (interface
        (port O (direction OUTPUT))
        (port I0 (direction INPUT)))))
   (cell FDRE (celltype GENERIC)
     (view netlist (viewtype NETLIST)
       (interface
        (port Q (direction OUTPUT))
        (port C (direction INPUT))
        (port D (direction INPUT))))))
  (Library work
    (edifLevel 0)
    (technology (numberDefinition ))
   (cell blinker (celltype GENERIC)
     (view blinker (viewtype NETLIST)
       (interface
        (port clk (direction INPUT))
        (port (array (rename q \"q[3:0]\") 4) (direction OUTPUT)))
       (contents
        (instance (rename q_reg_0_ \"q_reg[0]\") (viewref netlist (cellref FDRE (libraryref prims)))
          (property INIT (string \"1'b0\")))
        (instance lut (viewref netlist (cellref LUT1 (libraryref prims)))
          (property INIT (string \"2'h1\"))
          (property DONT_TOUCH (boolean (true)) (owner \"user\")))
        (net clk (joined (portref clk) (portref C (instanceref q_reg_0_))))
        (net (rename q_0_ \"q[0]\") (joined
          (portref (member q 3)) (portref Q (instanceref q_reg_0_)) (portref I0 (instanceref lut))))
        (net d (joined (portref O (instanceref lut)) (portref D (instanceref q_reg_0_))))))))
(comment \"Reference To The Cell Of Highest Level\")
  (design blinker (cellref blinker (libraryref work))
    (property part (string \"xc7\"))))
";

/// The modules of the file that a synthesis program writes, as they are written.
pub const BLINKER_MODULES: &[u8] = b"module FDRE (
  output Q,
  input C,
  input D
);
endmodule
module LUT1 (
  output O,
  input I0
);
endmodule
(* part = \"xc7\" *)
module blinker (
  input clk,
  output [3:0] q
);
  wire d;
  (* INIT = \"1'b0\" *) FDRE \\q_reg[0]  (.Q(q[0]), .C(clk), .D(d));
  (* INIT = \"2'h1\", DONT_TOUCH = 1'b1 *) LUT1 lut (.O(d), .I0(q[0]));
endmodule
";

/// The same modules, where INIT is the name of a parameter.
pub const BLINKER_PARAMETERS: &[u8] = b"module FDRE (
  output Q,
  input C,
  input D
);
endmodule
module LUT1 (
  output O,
  input I0
);
endmodule
(* part = \"xc7\" *)
module blinker (
  input clk,
  output [3:0] q
);
  wire d;
  FDRE #(.INIT(1'b0)) \\q_reg[0]  (.Q(q[0]), .C(clk), .D(d));
  (* DONT_TOUCH = 1'b1 *) LUT1 #(.INIT(2'h1)) lut (.O(d), .I0(q[0]));
endmodule
";
