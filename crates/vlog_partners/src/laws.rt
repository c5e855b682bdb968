// The laws of files that are written for designs.
ghost use Rattle.std.specs.Prelude.{◌≡◌, ◌++◌, ◌∷◌, ℕ, List, [], None, bytes_eq, filter, map, Contains};
ghost use Rattle.net_hier.specs.Constants.{AreConstantNames, ConstantNames};
ghost use Rattle.net_hier.specs.Design.{Design, top_name};
ghost use Rattle.net_hier.specs.Example.{tied_design, translated_design};
ghost use Rattle.net_hier.specs.SameCells.{SameCells};
ghost use Rattle.net_hier.specs.SameDesign.{SameDesign};
ghost use Rattle.net_hier.specs.Valid.{HaveOwnNames, IsValid};
ghost use Rattle.net_hier.specs.declared.cells.HCell.{HCell};
ghost use Rattle.vlog_design.specs.Design.{vlog_design};
ghost use Rattle.vlog_design.specs.Names.{Name, clashing, has_name};
ghost use Rattle.vlog_design.specs.Rules.{first_G};
ghost use Rattle.vlog_partners.specs.Example.{over_file, tied_file};
ghost use Rattle.vlog_partners.specs.Partners.{AreWritten};
ghost use Rattle.vlog_values.specs.declared.module.VlogFile.{VlogFile};
ghost use Rattle.vlog_written.specs.OwnNames.{AreDistinct};

/// A file of modules that are written for the cells of a valid design, which have names of their
/// own, breaks no rule under the name of the top, and each design with the cells, the top and the
/// properties of the file's is the same as that design, cell by cell, and so as a whole.
pub fn written_files_are_the_same()
    ensures no_refusal { (design : Design) (file : VlogFile) → AreWritten design file.modules
        → IsValid design → HaveOwnNames (λ (cell : HCell). cell.name) design.cells
        → first_G file (top_name design.cells design.top) ≡ None }
    ensures same_cells { (design : Design) (file : VlogFile) → AreWritten design file.modules
        → IsValid design → HaveOwnNames (λ (cell : HCell). cell.name) design.cells
        → (names : ConstantNames) (other : Design)
        → other.cells ≡ (vlog_design file (top_name design.cells design.top)).cells
        → other.top ≡ (vlog_design file (top_name design.cells design.top)).top
        → other.props ≡ (vlog_design file (top_name design.cells design.top)).props
        → SameCells names design other None }
    ensures same_design { (design : Design) (file : VlogFile) → AreWritten design file.modules
        → IsValid design → HaveOwnNames (λ (cell : HCell). cell.name) design.cells
        → (names : ConstantNames) (other : Design)
        → other.cells ≡ (vlog_design file (top_name design.cells design.top)).cells
        → other.top ≡ (vlog_design file (top_name design.cells design.top)).top
        → other.props ≡ (vlog_design file (top_name design.cells design.top)).props
        → AreConstantNames names → SameDesign names design other }
{}

/// Cells of which no second has one name have names of their own. Ports and instances of which no
/// port has the name of an instance are apart, and distinct names stay so with a new one.
pub fn names_are_apart()
    ensures cells { (cells : List HCell)
        → clashing bytes_eq [] (map (λ (cell : HCell). cell.name) cells) ≡ []
        → HaveOwnNames (λ (cell : HCell). cell.name) cells }
    ensures both { (ports instances : List Name) → AreDistinct ports → AreDistinct instances
        → filter (has_name instances) ports ≡ [] → AreDistinct (ports ++ instances) }
    ensures more { (names : List Name) (name : Name) → AreDistinct names
        → (Contains names name → ⊥) → AreDistinct (names ++ name ∷ []) }
{}

/// The module of a cell whose port is joined to the constant zero, and the modules of a cell whose
/// port is joined to that of an instance, are written for these: what the law asks for can be met.
pub fn example_files()
    ensures tied { AreWritten tied_design tied_file.modules
        × HaveOwnNames (λ (cell : HCell). cell.name) tied_design.cells }
    ensures over { AreWritten translated_design over_file.modules
        × HaveOwnNames (λ (cell : HCell). cell.name) translated_design.cells }
{}
