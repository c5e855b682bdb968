// The parts that are one token.
ghost use Rattle.std.specs.Prelude.{◌≡◌, ℕ, List, Some};
ghost use Rattle.vlog_exprs.specs.Grammar.{name, number, mark, keyword, choice};
ghost use Rattle.vlog_exprs.specs.Reasons.{meant_by};
ghost use Rattle.vlog_laws.specs.Exact.{Any};
ghost use Rattle.vlog_exact.specs.Open.{IsReadWholly};

/// A name.
pub fn names_are_read_wholly()
    ensures { IsReadWholly name Any }
{}

/// A number.
pub fn numbers_are_read_wholly()
    ensures { IsReadWholly number Any }
{}

/// A punctuation mark.
pub fn marks_are_read_wholly()
    ensures { (due : ℕ) → IsReadWholly (mark due) Any }
{}

/// A keyword.
pub fn keywords_are_read_wholly()
    ensures { (due : List ℕ) → IsReadWholly (keyword due) Any }
{}

/// One of some keywords, at least one.
pub fn choices_are_read_wholly<T: Copy>()
    ensures { (words : List (List ℕ × T)) (word : List ℕ) (value : T)
        → meant_by words word ≡ Some value → IsReadWholly (choice words) Any }
{}
