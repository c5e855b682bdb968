// Reach among the cells of an EDIF file.
ghost use Rattle.std.specs.Prelude.{◌≡◌, ◌↔◌, ℕ, true};
ghost use Rattle.edif_design.specs.Reach.{is_reached};
ghost use Rattle.edif_values.specs.declared.file.EdifFile.{EdifFile};
ghost use Rattle.reach_laws.specs.Cells.{IsReachedFromTop};

/// A cell is reached exactly where instances lead to it from the top, or it is the top.
pub fn cells_are_reached()
    ensures { (file : EdifFile) (number : ℕ) → (is_reached file number ≡ true)
        ↔ IsReachedFromTop file number }
{}
