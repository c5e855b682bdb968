// The tokens of a text within the limit of an input.
ghost use Rattle.std.specs.Prelude.{◌≡◌, ◌<◌, ◌≤◌, ◌++◌, ℕ, List, length};
ghost use Rattle.grammar.specs.Whole.{Terminal, Over, Bad};
ghost use Rattle.nl_base.specs.declared.place.Place.{Place};
ghost use Rattle.nl_base.specs.declared.fault.TextFault.{TextFault};
ghost use Rattle.nl_bytes.specs.declared.bytes.TheConstants.{LIMIT};
ghost use Rattle.readers.specs.Rises.{Rises};
ghost use Rattle.vlog_tokens.specs.declared.token.VFound.{VFound};
ghost use Rattle.vlog_tokens.specs.Language.{stop_of, vtokens, all_tokens};

/// Bytes within the limit have all their tokens within it.
pub fn tokens_are_all()
    ensures { (bytes : List ℕ) → length bytes ≤ LIMIT → vtokens bytes ≡ all_tokens bytes }
{}

/// The tokens within the limit are a front of all tokens.
pub fn tokens_are_a_front()
    ensures { (bytes : List ℕ) → (rest : List (Terminal VFound Place))
        × ((all_tokens bytes).tokens ≡ (vtokens bytes).tokens ++ rest) }
{}

/// The tokens are cut at the limit only where there are more bytes.
pub fn tokens_are_cut_behind_the_limit()
    ensures { (bytes : List ℕ) → (vtokens bytes).finish ≡ Over → LIMIT < length bytes }
{}

/// Where bytes that are no token are found within the limit, all tokens end there.
pub fn no_token_is_found_within_the_limit()
    ensures { (bytes : List ℕ) (fault : TextFault) → (vtokens bytes).finish ≡ Bad fault
        → (all_tokens bytes ≡ vtokens bytes) × (fault.stop ≤ LIMIT) }
{}

/// The stops of the tokens of a text rise.
pub fn stops_rise()
    ensures { (bytes : List ℕ)
        → Rises stop_of 0 (all_tokens bytes).tokens (all_tokens bytes).finish }
{}
