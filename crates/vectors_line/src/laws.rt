// The laws of the texts of generated files.
ghost use Rattle.std.specs.Prelude.{ℕ, ◌≤◌, length};
ghost use Rattle.edif_library.specs.Text.{EdifReads};
ghost use Rattle.edif_writer.specs.Forms.{edif_text};
ghost use Rattle.nl_bytes.specs.declared.bytes.TheConstants.{LIMIT};
ghost use Rattle.vectors.specs.Files.{generated};

/// The text of a generated file of up to 100,000 cells is within the limit of an input.
pub fn generated_texts_fit()
    ensures { (seed cells : ℕ) → cells ≤ 100000
        → length (edif_text (generated seed cells)) ≤ LIMIT }
{}

/// The text of a generated file of up to 100,000 cells reads as that file.
pub fn generated_texts_read_back()
    ensures { (seed cells : ℕ) → cells ≤ 100000
        → EdifReads (edif_text (generated seed cells)) (generated seed cells) }
{}
