// Sample texts: small EDIF and Verilog files.
ghost use Rattle.std.specs.Prelude.{◌≡◌};
ghost use Rattle.std.specs.Option.{option_copied};
ghost use Rattle.vectors.specs.Samples.{sample_at};

/// A file of one cell, by keywords in small letters, in capitals and in both.
const SMALL: &[u8] =
    b"(edif a(edifversion 2 0 0)(EDIFLEVEL 0)(keywordMap(keywordLevel 0))(library w(edifLevel 0)(technology(numberDefinition))(cell c(cellType GENERIC)(view v(viewType NETLIST)(interface))))(design a(cellRef c(libraryRef w))))";

/// A file as a synthesis program writes it.
const BLINKER: &[u8] = b"(edif blinker
  (edifversion 2 0 0)
  (edifLevel 0)
  (keywordmap (keywordlevel 0))
(status
 (written
  (timeStamp 2024 03 01 09 05 00)
  (program \"Synth\" (version \"1.2\"))
  (comment \"Built on a Linux machine\")
 )
)
  (Library prims
    (edifLevel 0)
    (technology (numberDefinition ))
   (cell LUT1 (celltype GENERIC)
     (view netlist (viewtype NETLIST)
       (interface
        (port O (direction OUTPUT))
        (port I0 (direction INPUT)))))
   (cell FDRE (celltype GENERIC)
     (view netlist (viewtype NETLIST)
       (interface
        (port Q (direction OUTPUT))
        (port C (direction INPUT))
        (port D (direction INPUT))))))
  (Library work
    (edifLevel 0)
    (technology (numberDefinition ))
   (cell blinker (celltype GENERIC)
     (view blinker (viewtype NETLIST)
       (interface
        (port clk (direction INPUT))
        (port (array (rename q \"q[3:0]\") 4) (direction OUTPUT)))
       (contents
        (instance (rename q_reg_0_ \"q_reg[0]\") (viewref netlist (cellref FDRE (libraryref prims)))
          (property INIT (string \"1'b0\")))
        (instance lut (viewref netlist (cellref LUT1 (libraryref prims)))
          (property INIT (string \"2'h1\"))
          (property DONT_TOUCH (boolean (true)) (owner \"user\")))
        (net clk (joined (portref clk) (portref C (instanceref q_reg_0_))))
        (net (rename q_0_ \"q[0]\") (joined
          (portref (member q 3)) (portref Q (instanceref q_reg_0_)) (portref I0 (instanceref lut))))
        (net d (joined (portref O (instanceref lut)) (portref D (instanceref q_reg_0_))))))))
(comment \"Reference To The Cell Of Highest Level\")
  (design blinker (cellref blinker (libraryref work))
    (property part (string \"xc7\"))))
";

/// A file of a keyword level that is not read.
const LEVEL: &[u8] =
    b"(edif a(edifVersion 2 0 0)(edifLevel 0)(keywordMap(keywordLevel 2)(keywordDefine x)))";

/// Connections to repeated, constant and unknown bits.
const REPEATED: &[u8] = b"module AND4 (input [3:0] A, output Y); endmodule
module top (input [1:0] b, input c, output y, output z);
  supply0 g;
  AND4 u (.A({2{b[1:0]}}), .Y(y));
  AND4 v (.A({{c, g}, 2 'b 1x}), .Y(z));
endmodule
";

/// Assignments between nets with attributes.
const ATTRIBUTES: &[u8] =
    b"module m (input a, output y); (* src = \"f:1\" *) wire p; (* src = \"f:2\" *) wire q; assign p = a; assign q = p; assign y = q; endmodule";

/// Nets with the names of a bit and of a keyword.
const ESCAPED: &[u8] = b"module m (input [1:0] a, output y);
  wire \\a[0] , \\wire , cpu;
  assign \\a[0]  = a[0];
  assign \\wire  = \\cpu ;
  assign cpu = a[1], y = \\wire ;
endmodule
";

/// The text of an example, by its number: 1, 3 and 5 are EDIF texts, 2 is the empty text, and 13, 14 and 15 are Verilog texts.
pub fn sample(number: u32) -> Option<&'static [u8]>
    ensures { option_copied result ≡ sample_at number }
{
    match number {
        1 => Some(SMALL),
        2 => Some(b""),
        3 => Some(BLINKER),
        5 => Some(LEVEL),
        13 => Some(REPEATED),
        14 => Some(ATTRIBUTES),
        15 => Some(ESCAPED),
        _ => None,
    }
}
