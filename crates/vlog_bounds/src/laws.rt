// The laws of what is kept of a text.
ghost use Rattle.std.specs.Prelude.{ℕ, ◌+◌, ◌<◌, ◌≤◌, List, length};
ghost use Rattle.nl_bytes.specs.declared.bytes.TheConstants.{LIMIT};
ghost use Rattle.vlog_values.specs.declared.module.VlogFile.{VlogFile};
ghost use Rattle.vlog_values.specs.Sizes.{vlog_size};
ghost use Rattle.vlog_values.specs.Values.{IsVlogValue};
ghost use Rattle.vlog_tokens.specs.Language.{vtokens};
ghost use Rattle.vlog_modules.specs.Text.{VlogReads};
ghost use Rattle.vlog_tokens.specs.Proper.{AreBytes, AreSound};

/// Each token of a text of bytes is one that a text can have: names, numbers, reals, based digits and strings are within their limits.
pub fn tokens_are_sound()
    ensures { (bytes : List ℕ) → AreBytes bytes → AreSound (vtokens bytes).tokens }
{}

/// A file that some bytes read as is one that can be written.
pub fn files_read_are_values()
    ensures { (bytes : List ℕ) (file : VlogFile) → AreBytes bytes → VlogReads bytes file
        → IsVlogValue file }
{}

/// Bytes that read as a file are at most 268,435,456. Bytes have at most one token more than there are bytes, since the end of the input is
/// a token; and a file that they read as has fewer items in all its lists than they have tokens. So its size is at most 268,435,456.
pub fn size_within()
    ensures input { (bytes : List ℕ) (file : VlogFile) → VlogReads bytes file
        → length bytes ≤ LIMIT }
    ensures bytes { (bytes : List ℕ) → length (vtokens bytes).tokens ≤ length bytes + 1 }
    ensures tokens { (bytes : List ℕ) (file : VlogFile) → VlogReads bytes file
        → vlog_size file < length (vtokens bytes).tokens }
    ensures size { (bytes : List ℕ) (file : VlogFile) → VlogReads bytes file
        → vlog_size file ≤ LIMIT }
{}
