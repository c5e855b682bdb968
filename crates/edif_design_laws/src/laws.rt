// The laws, as contracts of functions over the definitions alone.
ghost use Rattle.std.specs.Prelude.{◌≡◌, None};
ghost use Rattle.edif_design.specs.Design.{edif_design};
ghost use Rattle.edif_design.specs.FileRules.{first_E};
ghost use Rattle.edif_values.specs.declared.file.EdifFile.{EdifFile};
ghost use Rattle.edif_values.specs.Values.{IsEdifValue};
ghost use Rattle.edif_resolve.specs.Answers.{IsDesignOf};
ghost use Rattle.net_hier.specs.Design.{Design};
ghost use Rattle.net_values.specs.Sound.{IsSound};

/// The values of the design of a file are within the limits of both languages: of each design with the cells and the properties that a file
/// says which is a value and breaks no rule, and of each that `resolve` answers for a file that is a value.
pub fn designs_are_sound()
    ensures said { (file : EdifFile) (design : Design) → IsEdifValue file → first_E file ≡ None
        → design.cells ≡ (edif_design file).cells → design.props ≡ (edif_design file).props → IsSound design }
    ensures answered { (file : EdifFile) (design : Design) → IsEdifValue file
        → IsDesignOf file design → IsSound design }
{}
