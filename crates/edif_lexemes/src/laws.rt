ghost use Rattle.std.specs.Prelude.{◌≡◌, ◌↔◌, ℕ, List, ◌∷◌, IsFalse};
ghost use Rattle.grammar.specs.Whole.{Terminal, Finish};
ghost use Rattle.nl_base.specs.declared.fault.TextFault.{TextFault};
ghost use Rattle.nl_base.specs.declared.place.Place.{Place};
ghost use Rattle.nl_bytes.specs.Classes.{is_space};
ghost use Rattle.nl_bytes.specs.Tokens.{Ahead};
ghost use Rattle.edif_tokens.specs.declared.token.Found.{Found};
ghost use Rattle.edif_tokens.specs.Language.{tokens_from, stream_from};
ghost use Rattle.edif_lexemes.specs.Texts.{AreLexemes, AreTold, Stands, IsFaulty};

/// The tokens of a text are its lexemes, with their places and stops, and it ends as they do.
pub fn tokens_are_lexemes()
    ensures { (p : Place) (text : List ℕ) (found : List (Terminal Found Place))
        (finish : Finish TextFault)
        → (tokens_from 0 p text ≡ record { tokens = found; finish = finish })
        ↔ AreLexemes p text found finish }
{}

/// What a reader tells of the tokens are the lexemes within the limit of an input.
pub fn told_tokens_are_lexemes()
    ensures { (p : Place) (text : List ℕ) (s : Ahead Found)
        → (stream_from p text ≡ s) ↔ AreTold p text s }
{}

/// Bytes of which the first is no white space have a lexical fault exactly where no token stands at
/// their front.
pub fn faults_are_where_no_token_stands()
    ensures { (b : ℕ) (bs : List ℕ) → IsFalse (is_space b)
        → IsFaulty (b ∷ bs) ↔ (Stands (b ∷ bs) → ⊥) }
{}
