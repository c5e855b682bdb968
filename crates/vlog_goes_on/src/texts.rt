// Which bytes have some tokens, and which texts go on.
ghost use Rattle.std.specs.Prelude.{◌≡◌, ◌↔◌, ◌++◌, ℕ, List, map};
ghost use Rattle.std.specs.List.{AllByRecursion};
ghost use Rattle.grammar.specs.Texts.{Begins};
ghost use Rattle.grammar.specs.Whole.{Terminal, proper, whole};
ghost use Rattle.grammar_laws.specs.GoesOn.{AllOf};
ghost use Rattle.nl_base.specs.declared.fault.TextFault.{TextFault};
ghost use Rattle.nl_base.specs.declared.place.Place.{Place};
ghost use Rattle.vlog_tokens.specs.declared.token.VFound.{VFound};
ghost use Rattle.vlog_tokens.specs.declared.token.VToken.{VToken};
ghost use Rattle.vlog_tokens.specs.Language.{all_tokens, vtokens};
ghost use Rattle.vlog_tokens.specs.Proper.{AreBytes};
ghost use Rattle.vlog_exprs.specs.Reasons.{trailing};
ghost use Rattle.vlog_lexing.specs.Lexing.{Lexes};
ghost use Rattle.vlog_modules.specs.Grammar.{file as file_part};
ghost use Rattle.vlog_modules.specs.AnyLength.{VlogFails};
ghost use Rattle.vlog_goes_on.specs.GoesOn.{IsOfBytes, CanStand, GoesOn};
ghost use Rattle.vlog_goes_on.specs.Onward.{GoesOnToFile, GoesOnBefore};

/// Tokens can be gone on with to a file, by any tokens, exactly where they can be so by tokens that bytes can spell.
pub fn fronts_go_on()
    ensures { (front : List (Terminal VFound Place)) → Begins tt (whole trailing file_part) front
        ↔ GoesOn front }
{}

/// Such tokens are those of some bytes, wherever these stand.
pub fn tokens_are_of_bytes()
    ensures { (of_bytes : List VToken) → AllByRecursion IsOfBytes of_bytes → (bytes : List ℕ)
        × AreBytes bytes × Lexes bytes of_bytes }
{}

/// Each token of a text of bytes, within the limit of an input, is one that bytes can spell.
pub fn tokens_of_texts_can_stand()
    ensures { (bytes : List ℕ) → AreBytes bytes → AllOf CanStand (vtokens bytes).tokens }
{}

/// Tokens at the front of bytes of any length can be gone on with to a file exactly where a text that goes on from their bytes is one.
pub fn fronts_go_on_to_texts()
    ensures { (bytes : List ℕ) (front : List VFound) (rest : List (Terminal VFound Place))
        → (all_tokens bytes).tokens ≡ map proper front ++ rest
        → Begins tt (whole trailing file_part) (map proper front) ↔ GoesOnToFile bytes front }
{}

/// What stands before a first fault goes on to a file: some text goes on from the bytes of the tokens before the fault, and is one.
pub fn texts_go_on_before_a_fault()
    ensures { (bytes : List ℕ) (fault : TextFault) → VlogFails bytes fault
        → GoesOnBefore bytes fault }
{}
