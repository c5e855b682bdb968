// The laws of what tokens spell: the grammar that is read by looking at one token has the texts of the extended BNF.
ghost use Rattle.std.specs.Prelude.{◌↔◌, ℕ, Bool};
ghost use Rattle.grammar.specs.Texts.{Spells};
ghost use Rattle.vlog_values.specs.declared.expression.Const.{Const};
ghost use Rattle.vlog_values.specs.declared.expression.Expr.{Expr};
ghost use Rattle.vlog_exprs.specs.Expressions.{Tokens, ExprText, ConstText};
ghost use Rattle.vlog_exprs.specs.Grammar.{expr, constant};

/// The tokens that read as an expression, or a left side, with at most `room` braces in one another are those that the extended BNF has for it.
pub fn expression_texts()
    ensures { (left : Bool) (room : ℕ) (ts : Tokens) (e : Expr) → Spells tt (expr left room) ts e
        ↔ ExprText left room ts e }
{}

/// The tokens that read as a constant are those that the extended BNF has for it.
pub fn constant_texts()
    ensures { (ts : Tokens) (c : Const) → Spells tt constant ts c ↔ ConstText ts c }
{}
