// The laws of designs that break no rule, of their properties, and of plain modules.
ghost use Rattle.std.specs.Prelude.{◌≡◌, ◌<◌, ◌≤◌, ℕ, Bool, [], List, None, IfSome, length, true};
ghost use Rattle.std.specs.List.{AllByRecursion};
ghost use Rattle.nl_base.specs.declared.value.PropValue.{PropValue};
ghost use Rattle.net_bits.specs.Names.{NameSet, has_name};
ghost use Rattle.net_hier.specs.Cells.{width_of};
ghost use Rattle.net_hier.specs.Design.{IsCell};
ghost use Rattle.net_hier.specs.declared.cells.HCell.{HCell};
ghost use Rattle.net_hier.specs.declared.cells.HProp.{HProp};
ghost use Rattle.net_live.specs.Last.{last_of};
ghost use Rattle.net_values.specs.Sound.{AreSoundProps, IsSoundValue};
ghost use Rattle.to_verilog_props.specs.Constants.{attr_const, param_const};
ghost use Rattle.to_verilog_props.specs.Written.{attrs_of, given_attrs, given_params};
ghost use Rattle.to_verilog_rules.specs.Rules.{cells_twice, first_V, is_name};
ghost use Rattle.to_verilog_values.specs.Kept.{HaveGoodNames, IsNamedCell};
ghost use Rattle.to_verilog_values.specs.Writable.{IsGoodModule};
ghost use Rattle.vlog_values.specs.Values.{AreAttrs, IsConst, IsExpr, IsExprWithin, IsModule, IsName, IsParamSet, IsRange, is_left};
ghost use Rattle.vlog_values.specs.declared.expression.Expr.{Expr};
ghost use Rattle.vlog_values.specs.declared.expression.Expr.TheVariants.{Cat, Lit};
ghost use Rattle.vlog_written.specs.Written.{PlainModule, PlainPort, PlainWire, bit_literal, plain_module, port_expr, wire_expr};

/// A design that breaks no rule of the Verilog target.
pub fn no_rule_is_broken()
    ensures names { (cells : List HCell) (top : ℕ) (props : List HProp) (params : NameSet)
        → first_V cells top props (has_name params) ≡ None
        → (number : ℕ) (cell : HCell) → IsCell cells number cell → IsNamedCell params cell }
    ensures cells { (cells : List HCell) (top : ℕ) (props : List HProp) (params : NameSet)
        → first_V cells top props (has_name params) ≡ None → cells_twice cells ≡ [] }
    ensures design { (cells : List HCell) (top : ℕ) (props : List HProp) (params : NameSet)
        → first_V cells top props (has_name params) ≡ None → HaveGoodNames props }
{}

/// A name that can be written is one of a Verilog text.
pub fn names_are_values()
    ensures { (name : List ℕ) → is_name name ≡ true → IsName name }
{}

/// The constant of a value within the limits is within the limits of a Verilog text.
pub fn constants_are_values()
    ensures attributes { (value : PropValue) → IsSoundValue value → IsConst (attr_const value) }
    ensures parameters { (value : PropValue) → IsSoundValue value → IsConst (param_const value) }
{}

/// So are the attributes of properties, and the attributes and parameters of instances.
pub fn properties_are_values()
    ensures attributes { (props : List HProp) → HaveGoodNames props → AreSoundProps props
        → AreAttrs (attrs_of props) }
    ensures given { (params : NameSet) (props : List HProp) → HaveGoodNames props
        → AreSoundProps props → AreAttrs (given_attrs params (last_of props)) }
    ensures parameters { (params : NameSet) (props : List HProp) → HaveGoodNames props
        → AreSoundProps props → AllByRecursion IsParamSet (given_params params (last_of props)) }
{}

/// The expressions of a plain module can be written: a bit of a port, a wire, a constant, and a concatenation of such.
pub fn expressions_are_values()
    ensures ports { (levels : ℕ) (port : PlainPort) (bit : ℕ) → IsName port.name
        → IfSome port.range IsRange → bit < width_of port.range
        → IsExprWithin levels (port_expr port bit) × (is_left (port_expr port bit) ≡ true) }
    ensures wires { (levels : ℕ) (wire : PlainWire) → IsName wire.name
        → IsExprWithin levels (wire_expr wire) × (is_left (wire_expr wire) ≡ true) }
    ensures constants { (levels : ℕ) (one : Bool) → IsExprWithin levels (Lit (bit_literal one)) }
    ensures concatenations { (exprs : List Expr) → 1 ≤ length exprs
        → AllByRecursion (IsExprWithin 63) exprs → IsExpr (Cat exprs) }
{}

/// A plain module whose parts can be written is a module of a Verilog text.
pub fn plain_modules_are_values()
    ensures { (p : PlainModule) → IsGoodModule p → IsModule (plain_module p) }
{}
