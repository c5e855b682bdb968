// The header of a file, and the file.
ghost use Rattle.std.specs.Prelude.{◌↔◌, List, ℕ, []};
ghost use Rattle.grammar.specs.Texts.{Spells};
ghost use Rattle.grammar.specs.Whole.{whole, IsText};
ghost use Rattle.nl_bytes.specs.Tokens.{Ahead};
ghost use Rattle.edif_tokens.specs.declared.token.Found.{Found};
ghost use Rattle.edif_keywords.specs.Aliases.{Alias};
ghost use Rattle.edif_keywords.specs.Reasons.{trailing};
ghost use Rattle.edif_keywords.specs.Grammar as keywords;
ghost use Rattle.edif_values.specs.declared.file.EdifFile.{EdifFile};
ghost use Rattle.edif_library.specs.Grammar as grammar;
ghost use Rattle.edif_productions.specs.Production.{Tokens, Texts, HasTextsOf};
ghost use Rattle.edif_productions.specs.Header.{HeaderText};
ghost use Rattle.edif_productions.specs.File.{file_item, file, IsFileText};

/// The header of a file, which makes the aliases of what follows it.
pub fn headers_are_read()
    ensures { (aliases : List Alias) (ts : Tokens) (all : List Alias)
        → Spells aliases (keywords.header aliases) ts all ↔ HeaderText aliases ts all }
{}

/// The items of a file, and files. The tokens of an input are a file exactly where they are a text
/// of it, and behind it the input ends.
pub fn files_are_read()
    ensures items { HasTextsOf (keywords.item grammar.file_keywords grammar.file_item) file_item }
    ensures file { (aliases : List Alias) (ts : Tokens) (v : EdifFile)
        → Spells aliases (grammar.file aliases) ts v ↔ Texts aliases file ts v }
    ensures input { (tokens : Ahead Found) (v : EdifFile)
        → IsText [] (whole trailing (grammar.file [])) tokens v ↔ IsFileText tokens v }
{}
