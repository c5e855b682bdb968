// What bytes of any length are: a file, or a first fault.
ghost use Rattle.std.specs.Prelude.{◌⊎◌, ℕ, List};
ghost use Rattle.nl_base.specs.declared.fault.TextFault.{TextFault};
ghost use Rattle.vlog_values.specs.declared.module.VlogFile.{VlogFile};
ghost use Rattle.vlog_modules.specs.AnyLength.{VlogSpells, VlogFails};

/// Bytes of any length spell a file or have a first fault.
pub fn a_file_or_a_first_fault()
    ensures { (bytes : List ℕ) → ((file : VlogFile) × VlogSpells bytes file)
        ⊎ ((fault : TextFault) × VlogFails bytes fault) }
{}
