// The law that the size of a file that was read is within the limit of an input.
ghost use Rattle.std.specs.Prelude.{◌≡◌, ℕ, ◌<◌, ◌≤◌, List, ◌++◌, length, map};
ghost use Rattle.grammar.specs.Whole.{Terminal, proper};
ghost use Rattle.nl_base.specs.declared.place.Place.{Place};
ghost use Rattle.nl_bytes.specs.declared.bytes.TheConstants.{LIMIT};
ghost use Rattle.edif_tokens.specs.declared.token.Found.{Found};
ghost use Rattle.edif_tokens.specs.Language.{tokens};
ghost use Rattle.edif_values.specs.declared.file.EdifFile.{EdifFile};
ghost use Rattle.edif_values.specs.Sizes.{edif_size};
ghost use Rattle.edif_library.specs.Text.{EdifReads};

/// Bytes that read as a file are at most 268,435,456. Bytes have no more tokens than there are bytes, besides the end of the input, which is
/// one more; and a file that they read as has fewer items in all its lists than they have tokens. So its size is at most 268,435,456.
pub fn size_within()
    ensures input { (bytes : List ℕ) (file : EdifFile) → EdifReads bytes file
        → length bytes ≤ LIMIT }
    ensures bytes { (bytes : List ℕ) (front : List Found) (rest : List (Terminal Found Place))
        → (tokens bytes).tokens ≡ map proper front ++ rest → length front ≤ length bytes }
    ensures tokens { (bytes : List ℕ) (file : EdifFile) → EdifReads bytes file
        → edif_size file < length (tokens bytes).tokens }
    ensures size { (bytes : List ℕ) (file : EdifFile) → EdifReads bytes file
        → edif_size file ≤ LIMIT }
{}
