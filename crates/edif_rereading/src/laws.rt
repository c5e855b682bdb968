// The law that a written text reads back.
ghost use Rattle.std.specs.Prelude.{ℕ, ◌≤◌, List, length};
ghost use Rattle.edif_values.specs.Proper.{AreBytes};
ghost use Rattle.nl_bytes.specs.declared.bytes.TheConstants.{LIMIT};
ghost use Rattle.edif_values.specs.declared.file.EdifFile.{EdifFile};
ghost use Rattle.edif_library.specs.Text.{EdifReads};
ghost use Rattle.edif_writer.specs.Forms.{edif_text};
ghost use Rattle.edif_values.specs.Values.{IsEdifValue};
ghost use Rattle.edif_library.specs.AnyLength.{EdifSpells};

/// The written text of a file that can be written spells the file, whatever its length, and reads as the file within the limit of an input.
pub fn reads_back()
    ensures spells { (file : EdifFile) → IsEdifValue file → EdifSpells (edif_text file) file }
    ensures reads { (file : EdifFile) → IsEdifValue file → length (edif_text file) ≤ LIMIT
        → EdifReads (edif_text file) file }
{}

/// A file that some bytes read as can be written; and what is written of it reads as the same file, within the limit of an input. So its
/// normal text is its own normal text.
pub fn files_read_are_written()
    ensures value { (bytes : List ℕ) (file : EdifFile) → AreBytes bytes → EdifReads bytes file
        → IsEdifValue file }
    ensures again { (bytes : List ℕ) (file : EdifFile) → AreBytes bytes → EdifReads bytes file
        → length (edif_text file) ≤ LIMIT → EdifReads (edif_text file) file }
{}
