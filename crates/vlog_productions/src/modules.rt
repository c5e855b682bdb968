// Headers, modules and files.
ghost use Rattle.std.specs.Prelude.{◌↔◌, Bool, true, []};
ghost use Rattle.grammar.specs.Part.{sequence};
ghost use Rattle.grammar.specs.Texts.{Spells};
ghost use Rattle.grammar.specs.Whole.{whole, IsText};
ghost use Rattle.nl_bytes.specs.Tokens.{Ahead};
ghost use Rattle.vlog_tokens.specs.declared.token.VFound.{VFound};
ghost use Rattle.vlog_values.specs.declared.module.Header.TheVariants as headers;
ghost use Rattle.vlog_values.specs.declared.module.VlogFile.{VlogFile};
ghost use Rattle.vlog_exprs.specs.Grammar as exprs;
ghost use Rattle.vlog_exprs.specs.Reasons.{trailing};
ghost use Rattle.vlog_exprs.specs.Expressions.{Tokens};
ghost use Rattle.vlog_modules.specs.Grammar as grammar;
ghost use Rattle.vlog_productions.specs.Production.{HasTextsOf, nothing, either};
ghost use Rattle.vlog_productions.specs.Declarations.{params, header};
ghost use Rattle.vlog_productions.specs.Modules.{module_of, VlogText, IsFileText};

/// The parameters of a module, and its header, which may be left out.
pub fn headers_are_read()
    ensures params { HasTextsOf grammar.params params }
    ensures header { HasTextsOf grammar.header (either header (nothing (headers.Names []))) }
{}

/// Modules, with the attributes before them.
pub fn modules_are_read()
    ensures { (implicit : Bool)
        → HasTextsOf (sequence exprs.attrs (grammar.module_of implicit)) (module_of implicit) }
{}

/// Files. The tokens of an input are a file exactly where they are a text of it, and behind it the
/// input ends.
pub fn files_are_read()
    ensures file { (ts : Tokens) (v : VlogFile)
        → Spells tt grammar.file ts v ↔ VlogText true ts v.modules }
    ensures input { (tokens : Ahead VFound) (v : VlogFile)
        → IsText tt (whole trailing grammar.file) tokens v ↔ IsFileText tokens v }
{}
