// Where the readers of parts need one more token.
ghost use Rattle.std.specs.Prelude.{Bool, ℕ, List};
ghost use Rattle.vlog_values.specs.declared.expression.Attr.{Attr};
ghost use Rattle.vlog_exprs.specs.Grammar.{bound, range, expr, constant, attrs};
ghost use Rattle.vlog_items.specs.Grammar.{param_set, item};
ghost use Rattle.vlog_laws.specs.Exact.{Any, EndsExpression, EndsConstant, EndsAttributes};
ghost use Rattle.vlog_exact.specs.Open.{NeedsMore};

/// The bound of a range or an index.
pub fn bounds_need_more()
    ensures { NeedsMore tt bound Any }
{}

/// A range.
pub fn ranges_need_more()
    ensures { NeedsMore tt range Any }
{}

/// An expression, or the left side of an assignment, with at most `room` braces in one another.
pub fn expressions_need_more()
    ensures { (left : Bool) (room : ℕ) → NeedsMore tt (expr left room) EndsExpression }
{}

/// A constant.
pub fn constants_need_more()
    ensures { NeedsMore tt constant EndsConstant }
{}

/// Attributes, which may be none.
pub fn attributes_need_more()
    ensures { NeedsMore tt attrs EndsAttributes }
{}

/// A parameter and its value.
pub fn parameters_need_more()
    ensures { NeedsMore tt param_set EndsConstant }
{}

/// An item of a module behind its attributes.
pub fn items_need_more()
    ensures { (before : List Attr) → NeedsMore tt (item before) Any }
{}
