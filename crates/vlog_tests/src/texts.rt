// Texts that the tests read, and what is written of them.

/// A module by ports of a header of names.
pub const MODULE: &[u8] =
    b"module m(a,y);input [1:0]a;output y;(*k=2*)wire w;BUF #(.N(4'HA)) u1(.I(a[0]),.O(w)),u2({1{w}},);assign y=w;endmodule";

/// The same file as it is written.
pub const MODULE_WRITTEN: &[u8] = b"module m (a, y);
  input [1:0] a;
  output y;
  (* k = 2 *) wire w;
  BUF #(.N(4'hA)) u1 (.I(a[0]), .O(w)), u2 ({1{w}}, );
  assign y = w;
endmodule
";

/// A module with items of each kind, and expressions and constants in their forms.
pub const PARTS: &[u8] = b"(* a, b = -3 *) (* c = 2, d = +1.5e1, e = 65536'b1 *) module m;
input wire signed [3:0] a, b; (* k = 1 *) supply0 g; parameter [3:0] A = 4'h3, B = 1.5, C = \"c\";
assign {a, b[1]} = {2{c}}, d = 1'b0; assign e = {a[3:-1], 8'hF_f, {2{b[0]}}};
L #(.A(1), .B(2)) u (.x(a), .y()), v (a, ); defparam u.A = 2, v.B = 'h3;
endmodule";

/// The same file as it is written.
pub const PARTS_WRITTEN: &[u8] = b"(* a = 1, b = -3, c = 2, d = 15e0, e = 65536'b1 *)
module m ();
  input wire signed [3:0] a, b;
  (* k = 1 *) supply0 g;
  parameter [3:0] A = 4'h3, B = 15e-1, C = \"c\";
  assign {a, b[1]} = {2{c}}, d = 1'b0;
  assign e = {a[3:-1], 8'hFf, {2{b[0]}}};
  L #(.A(1), .B(2)) u (.x(a), .y()), v (a, );
  defparam u.A = 2, v.B = 'h3;
endmodule
";

/// A module with names and strings that need escapes.
pub const ESCAPES: &[u8] =
    b"(* \\wire = \"a\\\"\\\\\\n\\t \\7\\377b\", _a$1 = \"\", \\1a = \"%\" *) module \\m ; endmodule";

/// The same file as it is written.
pub const ESCAPES_WRITTEN: &[u8] =
    b"(* \\wire  = \"a\\\"\\\\\\n\\t \\007\\377b\", _a$1 = \"\", \\1a  = \"%\" *)\nmodule m ();\nendmodule\n";
