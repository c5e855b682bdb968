// What a text reads as, its first fault and its cut, by all its tokens.
ghost use Rattle.std.specs.Prelude.{◌≡◌, ◌<◌, ◌≤◌, ◌↔◌, ◌∷◌, ◌++◌, [], ℕ, List, length};
ghost use Rattle.grammar.specs.Texts.{Begins};
ghost use Rattle.grammar.specs.Whole.{Terminal, whole};
ghost use Rattle.nl_base.specs.declared.fault.Reason.{Reason};
ghost use Rattle.nl_base.specs.declared.place.Place.{Place};
ghost use Rattle.nl_base.specs.declared.fault.TextFault.{TextFault};
ghost use Rattle.nl_bytes.specs.declared.bytes.TheConstants.{LIMIT};
ghost use Rattle.readers.specs.Readers.{fault_at};
ghost use Rattle.vlog_tokens.specs.declared.token.VFound.{VFound};
ghost use Rattle.vlog_tokens.specs.Language.{vlog, all_tokens};
ghost use Rattle.vlog_exprs.specs.Reasons.{trailing};
ghost use Rattle.vlog_values.specs.declared.module.VlogFile.{VlogFile};
ghost use Rattle.vlog_modules.specs.Grammar.{file as file_part};
ghost use Rattle.vlog_modules.specs.Text.{VlogReads, VlogFault, VlogCut};
ghost use Rattle.vlog_modules.specs.AnyLength.{VlogSpells, VlogFails};

/// Bytes read as a file exactly where they spell it and are within the limit of an input.
pub fn files_within_the_limit()
    ensures { (bytes : List ℕ) (file : VlogFile) → VlogReads bytes file
        ↔ (VlogSpells bytes file × (length bytes ≤ LIMIT)) }
{}

/// A first fault is that of the bytes within the limit exactly where it is that of all bytes and its stop is within the limit.
pub fn first_faults_within_the_limit()
    ensures { (bytes : List ℕ) (fault : TextFault) → VlogFault bytes fault
        ↔ (VlogFails bytes fault × (fault.stop ≤ LIMIT)) }
{}

/// Bytes are cut at the limit exactly where they are longer and each of their first faults has its stop past it.
pub fn cut_behind_the_limit()
    ensures { (bytes : List ℕ) → VlogCut bytes
        ↔ ((LIMIT < length bytes)
        × ((fault : TextFault) → VlogFails bytes fault → LIMIT < fault.stop)) }
{}

/// The first token of a text that no file has there, after the tokens before it, is the first fault, for some reason; so is the end.
pub fn first_fault_is_there()
    ensures { (bytes : List ℕ) (before after : List (Terminal VFound Place))
        (x : Terminal VFound Place) → (all_tokens bytes).tokens ≡ before ++ x ∷ after
        → Begins tt (whole trailing file_part) before
        → ¬ Begins tt (whole trailing file_part) (before ++ x ∷ []) → (reason : Reason)
        × VlogFails bytes (fault_at vlog x reason) }
{}
