ghost use Rattle.std.specs.Prelude.{◌≡◌, ◌↔◌, ℕ, List};
ghost use Rattle.nl_base.specs.declared.fault.TextFault.{TextFault};
ghost use Rattle.nl_base.specs.declared.place.Place.{Place};
ghost use Rattle.vlog_tokens.specs.declared.token.VFound.{VFound};
ghost use Rattle.nl_bytes.specs.Tokens.{limited};
ghost use Rattle.vlog_tokens.specs.Language.{tokens_from, stop_of, stream_from};
ghost use Rattle.vlog_lexemes.specs.Texts.{AreLexemes, EndsAt, Fails, FailsBy, whole_text, cut_text};

/// The tokens of a text that has no fault are its lexemes, with their places and stops, up to its
/// end.
pub fn tokens_are_lexemes()
    ensures { (p : Place) (text : List ℕ) (found : List VFound) (last : Place)
        → (tokens_from 0 p text ≡ whole_text found last) ↔ AreLexemes (EndsAt last) p text found }
{}

/// The tokens of a text end at a lexical fault exactly where, behind these lexemes, neither a token
/// nor white space stands.
pub fn faults_are_where_no_token_stands()
    ensures { (p : Place) (text : List ℕ) (found : List VFound)
        → ((fault : TextFault) × (tokens_from 0 p text ≡ cut_text found fault))
        ↔ AreLexemes Fails p text found }
{}

/// A reader tells of such a text the lexemes within the limit of an input.
pub fn told_tokens_are_lexemes()
    ensures { (p : Place) (text : List ℕ) (found : List VFound) (last : Place)
        → AreLexemes (EndsAt last) p text found
        → stream_from p text ≡ limited stop_of (whole_text found last) }
{}

/// The fault is that of the table at this place, with its reason and its stop.
pub fn faults_are_those_of_the_table()
    ensures { (p : Place) (text : List ℕ) (found : List VFound) (fault : TextFault)
        → (tokens_from 0 p text ≡ cut_text found fault)
        ↔ AreLexemes (FailsBy fault) p text found }
{}

/// A reader tells of other texts the lexemes before the fault, and the fault, within the limit of
/// an input.
pub fn told_faults_are_those_of_the_table()
    ensures { (p : Place) (text : List ℕ) (found : List VFound) (fault : TextFault)
        → AreLexemes (FailsBy fault) p text found
        → stream_from p text ≡ limited stop_of (cut_text found fault) }
{}
