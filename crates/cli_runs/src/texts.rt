// Texts that tests read, and what is written of them.

/// A file of one cell, by keywords in small letters, in capitals and in both.
pub const SMALL: &[u8] =
    b"(edif a(edifversion 2 0 0)(EDIFLEVEL 0)(keywordMap(keywordLevel 0))(library w(edifLevel 0)(technology(numberDefinition))(cell c(cellType GENERIC)(view v(viewType NETLIST)(interface))))(design a(cellRef c(libraryRef w))))";

/// The same file by an alias of an alias.
pub const ALIASED: &[u8] =
    b"(edif a(edifversion 2 0 0)(EDIFLEVEL 0)(keywordMap(keywordLevel 1)(keywordAlias kc cell)(keywordAlias kd KC))(library w(edifLevel 0)(technology(numberDefinition))(kd c(cellType GENERIC)(view v(viewType NETLIST)(interface))))(design a(cellRef c(libraryRef w))))";

/// The same file as it is written.
pub const WRITTEN: &[u8] = b"(edif a
  (edifVersion 2 0 0)
  (edifLevel 0)
  (keywordMap (keywordLevel 0))
  (library w
    (edifLevel 0)
    (technology (numberDefinition))
    (cell c
      (cellType GENERIC)
      (view v
        (viewType NETLIST)
        (interface
        )
      )
    )
  )
  (design a (cellRef c (libraryRef w)))
)
";

/// A file with a status, user data, an escape, an array, scaled numbers and a scale.
pub const PARTS: &[u8] =
    b"(edif a(edifVersion 2 0 0)(edifLevel 0)(keywordMap(keywordLevel 0))(status(written(timeStamp 2024 03 01 09 05 00)(author \"a%37%b\")))(userData u(x(1 \"s\")))(external w(edifLevel 0)(technology(numberDefinition(scale 1(e 1 -9)(unit TIME))))(cell(rename c \"a% 34 037%b\")(cellType tie)(view v(viewType NETLIST)(interface(port(array(rename d \"d<0:1>\")+02)(direction output)))(property P(number(e 50 0)))(property R(number(e 5 -1)))(property N(integer -07))(property B(boolean(false)))))))";

/// The same file as it is written.
pub const PARTS_WRITTEN: &[u8] = b"(edif a
  (edifVersion 2 0 0)
  (edifLevel 0)
  (keywordMap (keywordLevel 0))
  (status
    (written
      (timeStamp 2024 3 1 9 5 0)
      (author \"a%37%b\")
    )
  )
  (userData u (x (1 \"s\")))
  (external w
    (edifLevel 0)
    (technology (numberDefinition (scale 1 (e 1 -9) (unit TIME))))
    (cell (rename c \"a%34 37%b\")
      (cellType TIE)
      (view v
        (viewType NETLIST)
        (interface
          (port (array (rename d \"d<0:1>\") 2) (direction OUTPUT))
        )
        (property P (number 50))
        (property R (number (e 5 -1)))
        (property N (integer -7))
        (property B (boolean (false)))
      )
    )
  )
)
";

/// A file as a synthesis program writes it.
pub const BLINKER: &[u8] = b"(edif blinker
  (edifversion 2 0 0)
  (edifLevel 0)
  (keywordmap (keywordlevel 0))
(status
 (written
  (timeStamp 2024 03 01 09 05 00)
  (program \"Synth\" (version \"1.2\"))
  (comment \"Built on a Linux machine\")
 )
)
  (Library prims
    (edifLevel 0)
    (technology (numberDefinition ))
   (cell LUT1 (celltype GENERIC)
     (view netlist (viewtype NETLIST)
       (interface
        (port O (direction OUTPUT))
        (port I0 (direction INPUT)))))
   (cell FDRE (celltype GENERIC)
     (view netlist (viewtype NETLIST)
       (interface
        (port Q (direction OUTPUT))
        (port C (direction INPUT))
        (port D (direction INPUT))))))
  (Library work
    (edifLevel 0)
    (technology (numberDefinition ))
   (cell blinker (celltype GENERIC)
     (view blinker (viewtype NETLIST)
       (interface
        (port clk (direction INPUT))
        (port (array (rename q \"q[3:0]\") 4) (direction OUTPUT)))
       (contents
        (instance (rename q_reg_0_ \"q_reg[0]\") (viewref netlist (cellref FDRE (libraryref prims)))
          (property INIT (string \"1'b0\")))
        (instance lut (viewref netlist (cellref LUT1 (libraryref prims)))
          (property INIT (string \"2'h1\"))
          (property DONT_TOUCH (boolean (true)) (owner \"user\")))
        (net clk (joined (portref clk) (portref C (instanceref q_reg_0_))))
        (net (rename q_0_ \"q[0]\") (joined
          (portref (member q 3)) (portref Q (instanceref q_reg_0_)) (portref I0 (instanceref lut))))
        (net d (joined (portref O (instanceref lut)) (portref D (instanceref q_reg_0_))))))))
(comment \"Reference To The Cell Of Highest Level\")
  (design blinker (cellref blinker (libraryref work))
    (property part (string \"xc7\"))))
";

/// The same file as it is written.
pub const BLINKER_WRITTEN: &[u8] = b"(edif blinker
  (edifVersion 2 0 0)
  (edifLevel 0)
  (keywordMap (keywordLevel 0))
  (status
    (written
      (timeStamp 2024 3 1 9 5 0)
      (program \"Synth\" (version \"1.2\"))
      (comment \"Built on a Linux machine\")
    )
  )
  (library prims
    (edifLevel 0)
    (technology (numberDefinition))
    (cell LUT1
      (cellType GENERIC)
      (view netlist
        (viewType NETLIST)
        (interface
          (port O (direction OUTPUT))
          (port I0 (direction INPUT))
        )
      )
    )
    (cell FDRE
      (cellType GENERIC)
      (view netlist
        (viewType NETLIST)
        (interface
          (port Q (direction OUTPUT))
          (port C (direction INPUT))
          (port D (direction INPUT))
        )
      )
    )
  )
  (library work
    (edifLevel 0)
    (technology (numberDefinition))
    (cell blinker
      (cellType GENERIC)
      (view blinker
        (viewType NETLIST)
        (interface
          (port clk (direction INPUT))
          (port (array (rename q \"q[3:0]\") 4) (direction OUTPUT))
        )
        (contents
          (instance (rename q_reg_0_ \"q_reg[0]\")
            (viewRef netlist (cellRef FDRE (libraryRef prims)))
            (property INIT (string \"1'b0\"))
          )
          (instance lut
            (viewRef netlist (cellRef LUT1 (libraryRef prims)))
            (property INIT (string \"2'h1\"))
            (property DONT_TOUCH (boolean (true)) (owner \"user\"))
          )
          (net clk
            (joined
              (portRef clk)
              (portRef C (instanceRef q_reg_0_))
            )
          )
          (net (rename q_0_ \"q[0]\")
            (joined
              (portRef (member q 3))
              (portRef Q (instanceRef q_reg_0_))
              (portRef I0 (instanceRef lut))
            )
          )
          (net d
            (joined
              (portRef O (instanceRef lut))
              (portRef D (instanceRef q_reg_0_))
            )
          )
        )
      )
    )
  )
  (comment \"Reference To The Cell Of Highest Level\")
  (design blinker (cellRef blinker (libraryRef work)) (property part (string \"xc7\")))
)
";

/// A file without a design.
pub const WITHOUT_DESIGN: &[u8] =
    b"(edif a(edifVersion 2 0 0)(edifLevel 0)(keywordMap(keywordLevel 0)))";

/// A cell with an instance of itself.
pub const RECURSIVE: &[u8] =
    b"(edif t(edifVersion 2 0 0)(edifLevel 0)(keywordMap(keywordLevel 0))(library w(edifLevel 0)(technology(numberDefinition))(cell top(cellType GENERIC)(view v(viewType NETLIST)(interface)(contents(instance u(viewRef v(cellRef top)))))))(design t(cellRef top(libraryRef w))))";

/// A port that is one bit too wide.
pub const WIDE: &[u8] =
    b"(edif t(edifVersion 2 0 0)(edifLevel 0)(keywordMap(keywordLevel 0))(library w(edifLevel 0)(technology(numberDefinition))(cell top(cellType GENERIC)(view v(viewType NETLIST)(interface(port(array p 65537)(direction INPUT))))))(design t(cellRef top(libraryRef w))))";

/// Three cells, each with an instance of the next, and the last with one of the first.
pub const CYCLE: &[u8] =
    b"(edif t(edifVersion 2 0 0)(edifLevel 0)(keywordMap(keywordLevel 0))(library w(edifLevel 0)(technology(numberDefinition))(cell top(cellType GENERIC)(view v(viewType NETLIST)(interface)(contents(instance u1(viewRef v(cellRef b))))))(cell b(cellType GENERIC)(view v(viewType NETLIST)(interface)(contents(instance u2(viewRef v(cellRef c))))))(cell c(cellType GENERIC)(view v(viewType NETLIST)(interface)(contents(instance u3(viewRef v(cellRef top)))))))(design t(cellRef top(libraryRef w))))";

/// An instance whose name has a blank.
pub const SPACED: &[u8] =
    b"(edif t(edifVersion 2 0 0)(edifLevel 0)(keywordMap(keywordLevel 0))(library w(edifLevel 0)(technology(numberDefinition))(cell INV(cellType GENERIC)(view v(viewType NETLIST)(interface(port I(direction INPUT))(port O(direction OUTPUT)))))(cell top(cellType GENERIC)(view v(viewType NETLIST)(interface)(contents(instance(rename u \"my cell\")(viewRef v(cellRef INV)))))))(design t(cellRef top(libraryRef w))))";

/// A reference to an instance that two are alike to up to case.
pub const SEVERAL: &[u8] =
    b"(edif t(edifVersion 2 0 0)(edifLevel 0)(keywordMap(keywordLevel 0))(library w(edifLevel 0)(technology(numberDefinition))(cell INV(cellType GENERIC)(view v(viewType NETLIST)(interface(port I(direction INPUT))(port O(direction OUTPUT)))))(cell top(cellType GENERIC)(view v(viewType NETLIST)(interface(port clk(direction INPUT)))(contents(instance Ab(viewRef v(cellRef INV)))(instance aB(viewRef v(cellRef INV)))(net n(joined(portRef CLK)(portRef I(instanceRef ab))))))))(design t(cellRef top(libraryRef w))))";

/// A reference to an array port without a member.
pub const WHOLE_ARRAY: &[u8] =
    b"(edif t(edifVersion 2 0 0)(edifLevel 0)(keywordMap(keywordLevel 0))(library w(edifLevel 0)(technology(numberDefinition))(cell B4(cellType GENERIC)(view v(viewType NETLIST)(interface(port(array(rename D \"D[3:0]\")4)(direction INPUT))(port E(direction INPUT)))))(cell top(cellType GENERIC)(view v(viewType NETLIST)(interface(port a(direction INPUT))(port b(direction INPUT)))(contents(instance u(viewRef v(cellRef B4)))(net na(joined(portRef a)(portRef D(instanceRef u))))(net nb(joined(portRef b)(portRef(member D 2)(instanceRef u))))))))(design t(cellRef top(libraryRef w))))";

/// A reference to a member that an array port does not have.
pub const NO_BIT: &[u8] =
    b"(edif t(edifVersion 2 0 0)(edifLevel 0)(keywordMap(keywordLevel 0))(library w(edifLevel 0)(technology(numberDefinition))(cell B4(cellType GENERIC)(view v(viewType NETLIST)(interface(port(array(rename D \"D[3:0]\")4)(direction INPUT))(port E(direction INPUT)))))(cell top(cellType GENERIC)(view v(viewType NETLIST)(interface(port a(direction INPUT))(port b(direction INPUT)))(contents(instance u(viewRef v(cellRef B4)))(net na(joined(portRef a)(portRef(member D 4)(instanceRef u))))(net nb(joined(portRef b)(portRef(member D 2)(instanceRef u))))))))(design t(cellRef top(libraryRef w))))";

/// The modules of the file that a synthesis program writes, as they are written.
pub const BLINKER_MODULES: &[u8] = b"module FDRE (
  output Q,
  input C,
  input D
);
endmodule
module LUT1 (
  output O,
  input I0
);
endmodule
(* part = \"xc7\" *)
module blinker (
  input clk,
  output [3:0] q
);
  wire d;
  (* INIT = \"1'b0\" *) FDRE \\q_reg[0]  (.Q(q[0]), .C(clk), .D(d));
  (* INIT = \"2'h1\", DONT_TOUCH = 1'b1 *) LUT1 lut (.O(d), .I0(q[0]));
endmodule
";

/// The same modules, where INIT is the name of a parameter.
pub const BLINKER_PARAMETERS: &[u8] = b"module FDRE (
  output Q,
  input C,
  input D
);
endmodule
module LUT1 (
  output O,
  input I0
);
endmodule
(* part = \"xc7\" *)
module blinker (
  input clk,
  output [3:0] q
);
  wire d;
  FDRE #(.INIT(1'b0)) \\q_reg[0]  (.Q(q[0]), .C(clk), .D(d));
  (* DONT_TOUCH = 1'b1 *) LUT1 #(.INIT(2'h1)) lut (.O(d), .I0(q[0]));
endmodule
";

/// Replications, concatenations, literals and a supply net.
pub const LITERALS: &[u8] = b"module AND4 (input [3:0] A, output Y); endmodule
module top (input [1:0] b, input c, output y, output z);
  supply0 g;
  AND4 u (.A({2{b[1:0]}}), .Y(y));
  AND4 v (.A({{c, g}, 2 'b 1x}), .Y(z));
endmodule
";

/// The same file as it is written.
pub const LITERALS_WRITTEN: &[u8] = b"module AND4 (
  input [3:0] A,
  output Y
);
endmodule
module top (
  input [1:0] b,
  input c,
  output y,
  output z
);
  supply0 g;
  AND4 u (.A({2{b[1:0]}}), .Y(y));
  AND4 v (.A({{c, g}, 2'b1x}), .Y(z));
endmodule
";

/// Nets with attributes, each assigned from the one before.
pub const CHAINED: &[u8] =
    b"module m (input a, output y); (* src = \"f:1\" *) wire p; (* src = \"f:2\" *) wire q; assign p = a; assign q = p; assign y = q; endmodule";

/// The same file as it is written.
pub const CHAINED_WRITTEN: &[u8] = b"module m (
  input a,
  output y
);
  (* src = \"f:1\" *) wire p;
  (* src = \"f:2\" *) wire q;
  assign p = a;
  assign q = p;
  assign y = q;
endmodule
";

/// Escaped names, of which one needs no escape.
pub const ESCAPED: &[u8] = b"module m (input [1:0] a, output y);
  wire \\a[0] , \\wire , cpu;
  assign \\a[0]  = a[0];
  assign \\wire  = \\cpu ;
  assign cpu = a[1], y = \\wire ;
endmodule
";

/// The same file as it is written.
pub const ESCAPED_WRITTEN: &[u8] = b"module m (
  input [1:0] a,
  output y
);
  wire \\a[0] , \\wire , cpu;
  assign \\a[0]  = a[0];
  assign \\wire  = cpu;
  assign cpu = a[1], y = \\wire ;
endmodule
";

/// A file up to the contents of the view of its cell t, which stands after the cell l.
pub const UP_TO_CONTENTS: &[u8] =
    b"(edif a(edifVersion 2 0 0)(edifLevel 0)(keywordMap(keywordLevel 0))
(library w(edifLevel 0)(technology(numberDefinition))
(cell l(cellType GENERIC)(view v(viewType NETLIST)(interface(port p(direction INPUT))(port(array q 2)(direction OUTPUT)))))
(cell t(cellType GENERIC)(view v(viewType NETLIST)(interface(port p(direction INPUT)))(contents";

/// From the end of that cell to the end of its library, with a cell that no instance is of, and that breaks a rule.
pub const UP_TO_DESIGNS: &[u8] =
    b")))(cell u(cellType GENERIC)(view v(viewType NETLIST)(interface)(contents(instance i(viewRef v(cellRef x)))))))";
