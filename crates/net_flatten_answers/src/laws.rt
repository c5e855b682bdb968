// The laws, as contracts of functions over the definitions alone.
ghost use Rattle.std.specs.Prelude.{ℕ, List};
ghost use Rattle.flat_classes.specs.FlatSums.{IsFewFlat};
ghost use Rattle.net_flatten_answers.specs.Answered.{AreOfDesign, IsAnswered};
ghost use Rattle.net_flatten_one.specs.Parts.{HasParts};
ghost use Rattle.net_hier.specs.Constants.{ConstantNames};
ghost use Rattle.net_hier.specs.Design.{Design};
ghost use Rattle.net_hier.specs.Valid.{IsValid};
ghost use Rattle.net_hier.specs.declared.cells.HCell.{HCell};
ghost use Rattle.net_hier.specs.declared.cells.HProp.{HProp};

/// Cells that keep all conditions of a design but the order have one: the postorder of the walk from the top.
pub fn cells_have_a_design()
    ensures { (cells : List HCell) (top : ℕ) (props : List HProp) → AreOfDesign cells top
        → (design : Design) × HasParts cells top props design × IsValid design }
{}

/// It cannot be that a valid design within the flat limit has neither a flattened design nor a first refusal.
pub fn designs_are_flattened_or_refused()
    ensures { (names : ConstantNames) (design : Design) → IsValid design → IsFewFlat design
        → ¬ ¬ IsAnswered names design }
{}
