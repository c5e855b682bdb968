// What bytes of any length spell, with no limit on an input.
ghost use Rattle.std.specs.Prelude.{◌≡◌, ℕ, List};
ghost use Rattle.nl_base.specs.declared.fault.TextFault.{TextFault};
ghost use Rattle.vlog_values.specs.declared.module.VlogFile.{VlogFile};
ghost use Rattle.vlog_modules.specs.AnyLength.{VlogSpells, VlogFails};

/// Bytes of any length spell at most one file.
pub fn one_file_of_any_length()
    ensures { (bytes : List ℕ) (file other : VlogFile) → VlogSpells bytes file
        → VlogSpells bytes other → file ≡ other }
{}

/// Bytes of any length have at most one first fault.
pub fn one_first_fault_of_any_length()
    ensures { (bytes : List ℕ) (fault other : TextFault) → VlogFails bytes fault
        → VlogFails bytes other → fault ≡ other }
{}

/// Bytes that spell a file have no first fault.
pub fn file_or_first_fault_of_any_length()
    ensures { (bytes : List ℕ) (file : VlogFile) (fault : TextFault) → VlogSpells bytes file
        → VlogFails bytes fault → ⊥ }
{}
