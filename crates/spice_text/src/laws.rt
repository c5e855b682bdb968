// The law of written texts.
ghost use Rattle.spice_text.specs.Reading.{HasSpiceNames, SpiceReads};
ghost use Rattle.spice_text.specs.Texts.{spice_text};
ghost use Rattle.spice_text.specs.declared.file.SpiceFile.{SpiceFile};

/// The written text of a file whose names are SPICE words reads as the file.
pub fn written_files_read_back()
    ensures { (file : SpiceFile) → HasSpiceNames file → SpiceReads (spice_text file) file }
{}
