// Connections, instances, assignments and the items of a module.
ghost use Rattle.std.specs.Prelude.{List};
ghost use Rattle.grammar.specs.Part.{sequence};
ghost use Rattle.vlog_values.specs.declared.expression.Attr.{Attr};
ghost use Rattle.vlog_exprs.specs.Grammar as exprs;
ghost use Rattle.vlog_items.specs.Grammar as grammar;
ghost use Rattle.vlog_productions.specs.Production.{HasTextsOf, optional, meaning, mark, expr, ◌·◌};
ghost use Rattle.vlog_productions.specs.Items.{conns, inst, overrides, assignment, item, with_attrs, attributed};

/// An expression that may be left out; connections up to the end of them, instances and the
/// parameters that they set; assignments; items, with the attributes before them.
pub fn items_are_read()
    ensures expr { HasTextsOf exprs.maybe_expr (optional expr) }
    ensures conns { HasTextsOf grammar.conns (meaning (λ x. x.0) (conns · mark 41)) }
    ensures inst { HasTextsOf grammar.«instance» inst }
    ensures overrides { HasTextsOf grammar.overrides overrides }
    ensures assignment { HasTextsOf grammar.assignment assignment }
    ensures item { (attrs : List Attr)
        → HasTextsOf (grammar.item attrs) (meaning (with_attrs attrs) item) }
    ensures attributed { HasTextsOf (sequence exprs.attrs grammar.item) attributed }
{}
