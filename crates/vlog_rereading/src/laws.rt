// The law that a written text reads back.
ghost use Rattle.std.specs.Prelude.{ℕ, ◌≤◌, List, length};
ghost use Rattle.nl_bytes.specs.declared.bytes.TheConstants.{LIMIT};
ghost use Rattle.vlog_values.specs.Values.{IsVlogValue};
ghost use Rattle.vlog_values.specs.declared.module.VlogFile.{VlogFile};
ghost use Rattle.vlog_modules.specs.Text.{VlogReads};
ghost use Rattle.vlog_tokens.specs.Proper.{AreBytes};
ghost use Rattle.vlog_writer.specs.Forms.{vlog_text};
ghost use Rattle.vlog_modules.specs.AnyLength.{VlogSpells};

/// The written text of a file that can be written spells the file, whatever its length, and reads as the file within the limit of an input.
pub fn reads_back()
    ensures spells { (file : VlogFile) → IsVlogValue file → VlogSpells (vlog_text file) file }
    ensures reads { (file : VlogFile) → IsVlogValue file → length (vlog_text file) ≤ LIMIT
        → VlogReads (vlog_text file) file }
{}

/// What is written of a file that some bytes read as spells that file, and reads as it within the limit of an input. So the normal text of a
/// file that was read is its own normal text.
pub fn files_read_are_written()
    ensures spells { (bytes : List ℕ) (file : VlogFile) → AreBytes bytes → VlogReads bytes file
        → VlogSpells (vlog_text file) file }
    ensures again { (bytes : List ℕ) (file : VlogFile) → AreBytes bytes → VlogReads bytes file
        → length (vlog_text file) ≤ LIMIT → VlogReads (vlog_text file) file }
{}
