// What bytes of any length spell, with no limit on an input.
ghost use Rattle.std.specs.Prelude.{◌≡◌, ℕ, List};
ghost use Rattle.nl_base.specs.declared.fault.TextFault.{TextFault};
ghost use Rattle.edif_values.specs.declared.file.EdifFile.{EdifFile};
ghost use Rattle.edif_library.specs.AnyLength.{EdifSpells, EdifFails};

/// Bytes of any length spell at most one file.
pub fn one_file_of_any_length()
    ensures { (bytes : List ℕ) (file other : EdifFile) → EdifSpells bytes file
        → EdifSpells bytes other → file ≡ other }
{}

/// Bytes of any length have at most one first fault.
pub fn one_first_fault_of_any_length()
    ensures { (bytes : List ℕ) (fault other : TextFault) → EdifFails bytes fault
        → EdifFails bytes other → fault ≡ other }
{}

/// Bytes that spell a file have no first fault.
pub fn file_or_first_fault_of_any_length()
    ensures { (bytes : List ℕ) (file : EdifFile) (fault : TextFault) → EdifSpells bytes file
        → EdifFails bytes fault → ⊥ }
{}
