// Attributes, ranges and the words of declarations.
ghost use Rattle.vlog_exprs.specs.Grammar as grammar;
ghost use Rattle.vlog_items.specs.Grammar as item_grammar;
ghost use Rattle.vlog_productions.specs.Production.{HasTextsOf, optional};
ghost use Rattle.vlog_productions.specs.Declarations.{attrs, range, signed, port_kind, ptype, pset};

/// Attributes; a range that may be left out; the words of a declaration; the type and the setting
/// of a parameter.
pub fn words_are_read()
    ensures attrs { HasTextsOf grammar.attrs attrs }
    ensures range { HasTextsOf grammar.maybe_range (optional range) }
    ensures signed { HasTextsOf item_grammar.signed signed }
    ensures port_kind { HasTextsOf item_grammar.port_kind port_kind }
    ensures ptype { HasTextsOf item_grammar.param_type ptype }
    ensures pset { HasTextsOf item_grammar.param_set pset }
{}
