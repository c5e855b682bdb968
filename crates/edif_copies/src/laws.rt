// The laws of files that are made of a design.
ghost use Rattle.std.specs.Prelude.{ℕ, Bool, List};
ghost use Rattle.edif_copies.specs.Answers.{IsEdifFor};
ghost use Rattle.edif_plans.specs.Planned.{IsPlannedFile};
ghost use Rattle.edif_design.specs.Design.{cell_value};
ghost use Rattle.edif_design.specs.References.{linked_cell, place_in};
ghost use Rattle.edif_values.specs.declared.file.EdifFile.{EdifFile};
ghost use Rattle.edif_plans.specs.Made.{new_cell_for};
ghost use Rattle.edif_plans.specs.declared.head.Head.{Head};
ghost use Rattle.net_hier.specs.Cells.{IsConstantCell};
ghost use Rattle.net_hier.specs.Constants.{AreConstantNames, ConstantNames, name_of_constant};
ghost use Rattle.net_hier.specs.Design.{Design};
ghost use Rattle.net_hier.specs.Valid.{IsValid};

/// The cell that is made for a constant stands for it, whichever file it stands in.
pub fn new_cells_stand_for_constants()
    ensures { (file : EdifFile) (numbers : List ℕ) (head : Head) (names : ConstantNames)
        (value : Bool) → IsConstantCell names value
        (cell_value numbers (linked_cell file (place_in 0 (new_cell_for head (name_of_constant names value))))) }
{}

/// A file that is made of a valid design as a plan says breaks no rule, and each design that says what the file says is the same as that
/// design: cell by cell, behind one first cell for each constant that some cell needs and no cell stands for, and so as a whole.
pub fn planned_files_are_the_same()
    ensures { (names : ConstantNames) (design : Design) (file : EdifFile)
        → AreConstantNames names → IsValid design → IsPlannedFile names design file
        → IsEdifFor names design file }
{}
