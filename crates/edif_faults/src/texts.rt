// What can go on with the tokens of a text.
ghost use Rattle.std.specs.Prelude.{◌≡◌, ◌⊎◌, ◌↔◌, ◌++◌, ℕ, List, []};
ghost use Rattle.grammar.specs.Faults.{Faults};
ghost use Rattle.grammar.specs.Texts.{Begins};
ghost use Rattle.grammar.specs.Whole.{Terminal, whole};
ghost use Rattle.nl_base.specs.declared.place.Place.{Place};
ghost use Rattle.nl_base.specs.declared.fault.Reason.{Reason};
ghost use Rattle.nl_base.specs.declared.fault.TextFault.{TextFault};
ghost use Rattle.readers.specs.Texts.{tokens_of};
ghost use Rattle.edif_tokens.specs.declared.token.Found.{Found};
ghost use Rattle.edif_keywords.specs.Language.{edif};
ghost use Rattle.edif_keywords.specs.Reasons.{trailing};
ghost use Rattle.edif_library.specs.Grammar.{file as file_part};
ghost use Rattle.edif_values.specs.declared.file.EdifFile.{EdifFile};
ghost use Rattle.edif_library.specs.AnyLength.{EdifSpells, EdifFails};
ghost use Rattle.edif_faults.specs.GoesOn.{GoesOn};

/// Tokens at the front of a text, within the limit of an input, go on to a file with any tokens exactly where they do so with tokens that
/// a text can have.
pub fn fronts_go_on()
    ensures { (bytes : List ℕ) (front rest : List (Terminal Found Place))
        → (tokens_of edif bytes).tokens ≡ front ++ rest
        → Begins [] (whole trailing (file_part [])) front ↔ GoesOn front }
{}

/// So do the tokens before a first fault.
pub fn tokens_before_a_fault_go_on()
    ensures { (bytes : List ℕ) (x : Terminal Found Place) (reason : Reason)
        (fault : Faults [] (whole trailing (file_part [])) (tokens_of edif bytes).tokens x reason)
        → GoesOn fault.before }
{}

/// Bytes of any length spell a file or have a first fault.
pub fn a_file_or_a_first_fault()
    ensures { (bytes : List ℕ) → ((file : EdifFile) × EdifSpells bytes file)
        ⊎ ((fault : TextFault) × EdifFails bytes fault) }
{}
