// The laws of what a text reads as.
ghost use Rattle.std.specs.Prelude.{◌≡◌, ℕ, List};
ghost use Rattle.nl_base.specs.declared.fault.TextFault.{TextFault};
ghost use Rattle.edif_values.specs.declared.file.EdifFile.{EdifFile};
ghost use Rattle.edif_library.specs.Text.{EdifReads, EdifFault, EdifCut};

/// A text reads as at most one file.
pub fn one_file()
    ensures { (bytes : List ℕ) (file other : EdifFile) → EdifReads bytes file
        → EdifReads bytes other → file ≡ other }
{}

/// A text has at most one first fault.
pub fn one_first_fault()
    ensures { (bytes : List ℕ) (fault other : TextFault) → EdifFault bytes fault
        → EdifFault bytes other → fault ≡ other }
{}

/// A text that reads as a file has no first fault, and neither has a text that is cut; no text that reads as a file is cut.
pub fn file_or_first_fault()
    ensures reads { (bytes : List ℕ) (file : EdifFile) (fault : TextFault) → EdifReads bytes file
        → EdifFault bytes fault → ⊥ }
    ensures whole { (bytes : List ℕ) (file : EdifFile) → EdifReads bytes file → EdifCut bytes → ⊥ }
    ensures cut { (bytes : List ℕ) (fault : TextFault) → EdifFault bytes fault → EdifCut bytes → ⊥ }
{}
