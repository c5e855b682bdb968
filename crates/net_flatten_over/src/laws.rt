// The laws of designs that are the same as a flattened one.
ghost use Rattle.std.specs.Prelude.{ℕ, Option, None};
ghost use Rattle.net_hier.specs.Constants.{AreConstantNames, ConstantNames};
ghost use Rattle.net_hier.specs.Design.{Design};
ghost use Rattle.net_hier.specs.SameCells.{SameCells};
ghost use Rattle.net_hier.specs.SameDesign.{SameDesign};
ghost use Rattle.net_hier.specs.Valid.{HaveOwnInstances, IsValid};
ghost use Rattle.net_flatten_over.specs.Over.{HasLeavesAlone, HasOwnNames};
ghost use Rattle.net_flatten_rules.specs.SameFlat.{SameFlat};

/// What is the same design as a flattened one, and whose top has no instances but leaves, is
/// flattened from the same design. Of the two flat designs their paths and the names of their ports
/// are asked, which valid designs have, and nothing of the design that was flattened.
pub fn flat_designs_go_over()
    ensures named { (names : ConstantNames) (design flat other : Design)
        → HasOwnNames flat → HasOwnNames other → SameFlat names design flat
        → SameDesign names flat other → HasLeavesAlone other → SameFlat names design other }
    ensures valid { (names : ConstantNames) (design flat other : Design)
        → IsValid flat → IsValid other → SameFlat names design flat
        → SameDesign names flat other → HasLeavesAlone other → SameFlat names design other }
{}

/// What is the same as a flattened design cell by cell is flattened from the same design: its top
/// has no instances but leaves, and cells of the constants that were added are leaves. Its
/// instances need names of their own, and, where none is added, nothing is asked of it.
pub fn copies_of_flat_designs_are_flat()
    ensures added { (names : ConstantNames) (design flat other : Design) (n : Option ℕ)
        → AreConstantNames names → IsValid flat → HaveOwnInstances other.cells
        → SameFlat names design flat → SameCells names flat other n → SameFlat names design other }
    ensures none_added { (names : ConstantNames) (design flat other : Design)
        → AreConstantNames names → IsValid flat
        → SameFlat names design flat → SameCells names flat other None → SameFlat names design other }
{}
