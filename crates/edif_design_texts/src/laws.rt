// The law, as the contract of a function over the definitions alone.
ghost use Rattle.std.specs.Prelude.{ℕ, List};
ghost use Rattle.edif_library.specs.Text.{EdifReads};
ghost use Rattle.edif_resolve.specs.Answers.{IsDesignOf};
ghost use Rattle.edif_values.specs.Proper.{AreBytes};
ghost use Rattle.edif_values.specs.declared.file.EdifFile.{EdifFile};
ghost use Rattle.net_hier.specs.Design.{Design};
ghost use Rattle.net_values.specs.Sound.{IsSound};

/// The values of each design that `resolve` answers for a file that bytes read as are within the limits of both languages.
pub fn read_designs_are_sound()
    ensures { (bytes : List ℕ) (file : EdifFile) (design : Design)
        → AreBytes bytes → EdifReads bytes file → IsDesignOf file design → IsSound design }
{}
