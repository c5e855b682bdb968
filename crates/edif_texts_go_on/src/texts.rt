// Which bytes have some tokens, and which texts go on.
ghost use Rattle.std.specs.Prelude.{◌≡◌, ◌↔◌, ◌++◌, ℕ, List, [], map};
ghost use Rattle.std.specs.List.{AllByRecursion};
ghost use Rattle.grammar.specs.Texts.{Begins};
ghost use Rattle.grammar.specs.Whole.{Terminal, proper, whole};
ghost use Rattle.nl_base.specs.declared.fault.TextFault.{TextFault};
ghost use Rattle.nl_base.specs.declared.place.Place.{Place};
ghost use Rattle.edif_tokens.specs.declared.token.Found.{Found};
ghost use Rattle.edif_values.specs.declared.token.Token.{Token};
ghost use Rattle.edif_values.specs.Proper.{AreBytes, IsProper};
ghost use Rattle.edif_tokens.specs.Language.{tokens};
ghost use Rattle.edif_keywords.specs.Reasons.{trailing};
ghost use Rattle.edif_lexing.specs.Lexing.{Lexes};
ghost use Rattle.edif_library.specs.Grammar.{file as file_part};
ghost use Rattle.edif_library.specs.Text.{EdifFault};
ghost use Rattle.edif_texts_go_on.specs.Onward.{GoesOnToFile, GoesOnBefore};

/// Proper tokens are those of some bytes, wherever these stand.
pub fn proper_tokens_are_of_bytes()
    ensures { (proper_tokens : List Token) → AllByRecursion IsProper proper_tokens
        → (bytes : List ℕ) × AreBytes bytes × Lexes bytes proper_tokens }
{}

/// Tokens at the front of some bytes, within the limit of an input, can be gone on with to a file exactly where a text that goes on from
/// their bytes is one.
pub fn fronts_go_on_to_texts()
    ensures { (bytes : List ℕ) (front : List Found) (rest : List (Terminal Found Place))
        → (tokens bytes).tokens ≡ map proper front ++ rest
        → Begins [] (whole trailing (file_part [])) (map proper front) ↔ GoesOnToFile bytes front }
{}

/// What stands before a first fault goes on to a file: some text goes on from the bytes of the tokens before the fault, and is one.
pub fn texts_go_on_before_a_fault()
    ensures { (bytes : List ℕ) (fault : TextFault) → EdifFault bytes fault
        → GoesOnBefore bytes fault }
{}
