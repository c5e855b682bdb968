// Productions that public readers of parts take, each with its law.
ghost use Rattle.std.specs.Prelude.{Bool, ℕ, List};
ghost use Rattle.vlog_values.specs.declared.expression.Attr.{Attr};
ghost use Rattle.vlog_exprs.specs.Grammar.{bound, range, expr, constant, attrs};
ghost use Rattle.vlog_items.specs.Grammar.{item};
ghost use Rattle.grammar.specs.Exact.{IsExact};
ghost use Rattle.vlog_laws.specs.Exact.{Any, EndsExpression, EndsConstant, EndsAttributes};

/// The bound of a range or an index.
pub fn bounds_are_exact()
    ensures { IsExact tt bound Any }
{}

/// A range.
pub fn ranges_are_exact()
    ensures { IsExact tt range Any }
{}

/// An expression, or the left side of an assignment, with at most `room` braces in one another.
pub fn expressions_are_exact()
    ensures { (left : Bool) (room : ℕ) → IsExact tt (expr left room) EndsExpression }
{}

/// A constant.
pub fn constants_are_exact()
    ensures { IsExact tt constant EndsConstant }
{}

/// Attributes, which may be none.
pub fn attributes_are_exact()
    ensures { IsExact tt attrs EndsAttributes }
{}

/// An item of a module behind its attributes.
pub fn items_are_exact()
    ensures { (before : List Attr) → IsExact tt (item before) Any }
{}
