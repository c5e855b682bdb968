// The laws of designs.
ghost use Rattle.std.specs.Prelude.{ℕ, Option, Some, None};
ghost use Rattle.net_hier.specs.Constants.{ConstantNames, AreConstantNames, usual_names};
ghost use Rattle.net_hier.specs.Design.{Design};
ghost use Rattle.net_hier.specs.Example.{tied_design, translated_design, untied_design};
ghost use Rattle.net_hier.specs.SameCells.{SameCells};
ghost use Rattle.net_hier.specs.SameDesign.{SameDesign};
ghost use Rattle.net_hier.specs.Valid.{HaveOwnInstances, IsValid};

/// Two designs that are the same cell by cell are the same design.
pub fn same_cells_give_same_design()
    ensures { (names : ConstantNames) (design other : Design) (n : Option ℕ)
        → AreConstantNames names → IsValid design → IsValid other → SameCells names design other n
        → SameDesign names design other }
{}

/// A cell whose port is joined to the constant zero is the same as one whose port a net joins to an added instance of `GND`, and
/// it is no longer the same design once the join is dropped: the definitions are neither empty nor trivial. All three designs are
/// valid, so the premises of `same_cells_give_same_design` hold of the first two.
pub fn example_designs()
    ensures valid { IsValid tied_design × IsValid translated_design × IsValid untied_design }
    ensures same { SameCells usual_names tied_design translated_design (Some 1) }
    ensures other { ¬ SameDesign usual_names tied_design untied_design }
{}

/// The same, where less is known of the other design: that the instances of each of its cells have names of their own, and, where no instance is
/// added, nothing at all. So a design that is made of a translated file is the same without an order of its cells.
pub fn partners_give_same_design()
    ensures added { (names : ConstantNames) (design other : Design) (n : Option ℕ)
        → AreConstantNames names → IsValid design → HaveOwnInstances other.cells
        → SameCells names design other n → SameDesign names design other }
    ensures none_added { (names : ConstantNames) (design other : Design) → AreConstantNames names
        → IsValid design → SameCells names design other None → SameDesign names design other }
{}
