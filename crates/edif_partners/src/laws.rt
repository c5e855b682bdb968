// The laws of cells that are made of those of a design.
ghost use Rattle.std.specs.Prelude.{◌≡◌, ◌↔◌, ℕ, Bool, true, List, [], get_or, slice_get, Some};
ghost use Rattle.nl_base.specs.declared.value.PropValue.{PropValue};
ghost use Rattle.edif_values.specs.declared.name.NameDef.{NameDef};
ghost use Rattle.edif_values.specs.declared.cell.Cell.{Cell};
ghost use Rattle.net_bits.specs.Classes.{AreClasses, ClassTable};
ghost use Rattle.net_hier.specs.Cells.{IsBitOrConstant, IsConstantCell, IsLocallyConnected};
ghost use Rattle.net_hier.specs.Facts.{HasNetValue, cell_props};
ghost use Rattle.net_hier.specs.SameCells.{IsPartner, SameCell, stand_in};
ghost use Rattle.net_hier.specs.Valid.{IsGoodCell};
ghost use Rattle.net_hier.specs.declared.cells.HCell.{HCell};
ghost use Rattle.net_hier.specs.declared.cells.HProp.{HProp};
ghost use Rattle.net_hier.specs.declared.nodes.Node.{Node};
ghost use Rattle.net_live.specs.Live.{needs_constant};
ghost use Rattle.net_stars.specs.Stars.{IsBit};
ghost use Rattle.edif_meanings.specs.Apart.{AreApart};
ghost use Rattle.edif_design.specs.CellRules.{cell_refusals};
ghost use Rattle.edif_design.specs.Design.{cell_value};
ghost use Rattle.edif_design.specs.FileRules.{refusals};
ghost use Rattle.edif_design.specs.References.{linked_cell, place_in};
ghost use Rattle.edif_written.specs.Written.{file_of};
ghost use Rattle.edif_plans.specs.Made.{IsMadeCell};
ghost use Rattle.edif_plans.specs.Plans.{constant_number, head_of, number_of};
ghost use Rattle.edif_plans.specs.declared.head.Head.{Head};
ghost use Rattle.edif_plans.specs.declared.plan.Plan.{Plan};
ghost use Rattle.net_hier.specs.Constants.{ConstantNames};
ghost use Rattle.net_hier.specs.Design.{Design, IsCell};
ghost use Rattle.edif_partners.specs.Files.{AreMadeCells};
ghost use Rattle.edif_partners.specs.Placed.{ArePlaced, ConstantStands, added_number};

/// What is made of a cell connects its port bits, its pin bits and the constants as the cell does, where the pin of an added instance
/// stands for its constant; and its nets give each port bit and pin bit the same values of properties.
pub fn made_cells_keep_their_nets()
    ensures connection { (name design_name : NameDef) (cells : List Cell) (top : List ℕ)
        (design_cells : List HCell) (plan : Plan) → ArePlaced design_cells plan cells
        → (head : Head) (cell : HCell) (props : List HProp) (classes : ClassTable) (made : Cell) (is : IsMadeCell design_cells plan head cell props classes made) → AreApart head.ports → AreClasses cell classes → IsGoodCell design_cells cell
        → ((value : Bool) → needs_constant classes value ≡ true → ConstantStands plan cells value) → (numbers : List ℕ)
        → (x y : Node) → IsBitOrConstant design_cells cell x → IsBitOrConstant design_cells cell y
        → IsLocallyConnected cell x y ↔ IsLocallyConnected (cell_value numbers (linked_cell (file_of name design_name cells top) (place_in 0 made))) (stand_in (added_number is.instances classes) x) (stand_in (added_number is.instances classes) y) }
    ensures values { (name design_name : NameDef) (cells : List Cell) (top : List ℕ)
        (design_cells : List HCell) (plan : Plan) → ArePlaced design_cells plan cells
        → (head : Head) (cell : HCell) (props : List HProp) (classes : ClassTable) (made : Cell) (is : IsMadeCell design_cells plan head cell props classes made) → AreApart head.ports → AreClasses cell classes → IsGoodCell design_cells cell
        → ((value : Bool) → needs_constant classes value ≡ true → ConstantStands plan cells value) → (numbers : List ℕ)
        → (x : Node) → IsBit design_cells cell x → (prop : List ℕ) (value : PropValue)
        → HasNetValue cell x prop value ↔ HasNetValue (cell_value numbers (linked_cell (file_of name design_name cells top) (place_in 0 made))) (stand_in (added_number is.instances classes) x) prop value }
{}

/// What is made of a cell breaks none of the rules on its ports, its instances and its nets.
pub fn made_cells_break_no_rule()
    ensures { (name design_name : NameDef) (cells : List Cell) (top : List ℕ)
        (design_cells : List HCell) (plan : Plan) → ArePlaced design_cells plan cells
        → (head : Head) (cell : HCell) (props : List HProp) (classes : ClassTable) (made : Cell) → IsMadeCell design_cells plan head cell props classes made → AreApart head.ports → AreClasses cell classes → IsGoodCell design_cells cell
        → ((value : Bool) → needs_constant classes value ≡ true → ConstantStands plan cells value)
        → cell_refusals (file_of name design_name cells top) (place_in 0 made) ≡ [] }
{}

/// A file each of whose cells is made for a constant or of a cell of a design breaks none of the rules E1 to E12, where its design is of one of these cells.
pub fn made_files_break_no_rule()
    ensures { (name design_name : NameDef) (cells : List Cell) (top : List ℕ)
        (names : ConstantNames) (design : Design) (plan : Plan)
        → AreMadeCells names design plan cells
        → ((number : ℕ) (cell : HCell) → IsCell design.cells number cell → IsGoodCell design.cells cell)
        → (k : ℕ) (top_cell : Cell) → slice_get cells k ≡ Some top_cell → top ≡ top_cell.name.ident → refusals (file_of name design_name cells top) ≡ [] }
{}

/// What is made of a cell is the same cell, where the numbers of the cells of the file are those of the cells of the other design, the
/// number of what is made of a cell of the design is that of its partner, and the cells of the constants that it needs are such.
pub fn made_cells_are_the_same()
    ensures { (name design_name : NameDef) (cells : List Cell) (top : List ℕ)
        (names : ConstantNames) (design other : Design) (plan : Plan) (n : ℕ)
        → ArePlaced design.cells plan cells → (numbers : List ℕ)
        → ((i : ℕ) (c : Cell) → slice_get cells i ≡ Some c → get_or numbers i 0 ≡ i) → ((number : ℕ) (cell : HCell) → IsCell design.cells number cell → IsPartner design (Some n) number (number_of plan number)) → other.props ≡ []
        → (number onumber : ℕ) (cell : HCell) → IsCell design.cells number cell → (classes : ClassTable) → AreClasses cell classes → IsGoodCell design.cells cell
        → (made : Cell) → IsMadeCell design.cells plan (head_of plan number) cell (cell_props design number cell) classes made → AreApart (head_of plan number).ports
        → ((value : Bool) → needs_constant classes value ≡ true → ConstantStands plan cells value)
        → ((value : Bool) → needs_constant classes value ≡ true → (below : HCell) × IsCell other.cells (constant_number plan value) below × IsConstantCell names value below)
        → SameCell names design other (Some n) number onumber cell (cell_value numbers (linked_cell (file_of name design_name cells top) (place_in 0 made))) }
{}
