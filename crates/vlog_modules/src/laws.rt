// The laws of what a text reads as, and of what its tokens spell: the grammar that is read by looking at one token has the texts of the
// extended BNF.
ghost use Rattle.std.specs.Prelude.{◌≡◌, ◌↔◌, ℕ, true, List, []};
ghost use Rattle.grammar.specs.Texts.{Spells};
ghost use Rattle.nl_base.specs.declared.fault.TextFault.{TextFault};
ghost use Rattle.vlog_values.specs.declared.module.VlogFile.{VlogFile};
ghost use Rattle.vlog_values.specs.declared.declaration.PortDecl.{PortDecl};
ghost use Rattle.vlog_values.specs.declared.declaration.ParamDecl.{ParamDecl};
ghost use Rattle.vlog_values.specs.declared.module.Header.TheVariants.{Decls};
ghost use Rattle.vlog_values.specs.declared.module.ItemV.{ItemV};
ghost use Rattle.vlog_exprs.specs.Expressions.{Tokens};
ghost use Rattle.vlog_modules.specs.Grammar as grammar;
ghost use Rattle.vlog_modules.specs.Productions.{DeclsText, GroupsText, ItemsText, FileText};
ghost use Rattle.vlog_modules.specs.Text.{VlogReads, VlogFault, VlogCut};

/// A text reads as at most one file.
pub fn one_file()
    ensures { (bytes : List ℕ) (file other : VlogFile) → VlogReads bytes file
        → VlogReads bytes other → file ≡ other }
{}

/// A text has at most one first fault.
pub fn one_first_fault()
    ensures { (bytes : List ℕ) (fault other : TextFault) → VlogFault bytes fault
        → VlogFault bytes other → fault ≡ other }
{}

/// A text that reads as a file has no first fault, and neither has a text that is cut; no text that reads as a file is cut.
pub fn file_or_first_fault()
    ensures reads { (bytes : List ℕ) (file : VlogFile) (fault : TextFault) → VlogReads bytes file
        → VlogFault bytes fault → ⊥ }
    ensures whole { (bytes : List ℕ) (file : VlogFile) → VlogReads bytes file → VlogCut bytes → ⊥ }
    ensures cut { (bytes : List ℕ) (fault : TextFault) → VlogFault bytes fault → VlogCut bytes → ⊥ }
{}

/// The tokens that read as the declarations of a header, behind its `(`, are those that the extended BNF has for them.
pub fn declaration_texts()
    ensures { (ts : Tokens) (ds : List PortDecl) → Spells tt grammar.decl_header ts (Decls ds)
        ↔ DeclsText ts ds }
{}

/// The tokens that read as the parameters of a header, behind its `#`, are those that the extended BNF has for them.
pub fn parameter_texts()
    ensures { (ts : Tokens) (gs : List ParamDecl) → Spells tt grammar.params_rest ts gs
        ↔ GroupsText ts gs }
{}

/// The tokens that read as the items of a module, up to its `endmodule`, are those that the extended BNF has for them.
pub fn item_texts()
    ensures { (ts : Tokens) (is : List ItemV) → Spells tt (grammar.items []) ts is
        ↔ ItemsText ts is }
{}

/// The tokens that read as a file are those that the extended BNF has for it.
pub fn file_texts()
    ensures { (ts : Tokens) (file : VlogFile) → Spells tt grammar.file ts file
        ↔ FileText true ts file.modules }
{}
