// The laws of flat classes.
ghost use Rattle.std.specs.Prelude.{ℕ, ◌≡◌, ◌↔◌};
ghost use Rattle.flat_classes.specs.FlatSums.{flat_count};
ghost use Rattle.flat_classes.specs.Terminals.{AreFlatClasses, FlatValue};
ghost use Rattle.flat_numbers.specs.FlatCounts.{IsFlatCount};
ghost use Rattle.net_hier.specs.Constants.{ConstantNames};
ghost use Rattle.net_hier.specs.Design.{Design};
ghost use Rattle.net_hier.specs.Valid.{IsValid};

/// A valid design has one value of flat classes: one list of spots, of leaves and of terminals, and
/// one number for the group of each terminal.
pub fn designs_have_one_value_of_flat_classes()
    ensures { (names : ConstantNames) (design : Design) (a b : FlatValue) → IsValid design →
        AreFlatClasses names design a → AreFlatClasses names design b → a ≡ b }
{}

/// A valid design has one flat count: the number that its cells and its top have, whatever the
/// order of the cells.
pub fn designs_have_one_flat_count()
    ensures { (design : Design) (count : ℕ) → IsValid design →
        IsFlatCount design count ↔ (count ≡ flat_count design.cells design.top) }
{}
