// The parts that the cursor itself reads.
ghost use Rattle.std.specs.Prelude.{◌≡◌, true, List};
ghost use Rattle.edif_keywords.specs.Aliases.{Alias};
ghost use Rattle.edif_values.specs.Keywords.{has};
ghost use Rattle.edif_values.specs.declared.keyword.Keyword.{Keyword};
ghost use Rattle.edif_keywords.specs.Grammar.{begin, closing, header, integer, opening, string, view_type, word};
ghost use Rattle.edif_exact.specs.Open.{IsReadWholly};

/// The header of a file, which makes its aliases.
pub fn headers_are_read_wholly()
    ensures { (table : List Alias) → IsReadWholly (header table) }
{}

/// The beginning of a form with one of some keywords.
pub fn beginnings_are_read_wholly()
    ensures { (keyword : Keyword) (allowed : List Keyword) → has allowed keyword ≡ true
        → IsReadWholly (begin allowed) }
{}

/// The beginning of a list.
pub fn list_beginnings_are_read_wholly()
    ensures { IsReadWholly opening }
{}

/// The end of a form or a list.
pub fn ends_are_read_wholly()
    ensures { IsReadWholly closing }
{}

/// A word.
pub fn words_are_read_wholly()
    ensures { IsReadWholly word }
{}

/// A string.
pub fn strings_are_read_wholly()
    ensures { IsReadWholly string }
{}

/// An integer.
pub fn integers_are_read_wholly()
    ensures { IsReadWholly integer }
{}

/// The word of a view type.
pub fn view_types_are_read_wholly()
    ensures { IsReadWholly view_type }
{}
