// The laws of live classes: what both translators keep of a cell.
ghost use Rattle.std.specs.Prelude.{◌≡◌, ◌≢◌, ◌↔◌, ℕ, Bool, true, List, Some, map, slice_get};
ghost use Rattle.nl_base.specs.declared.value.PropValue.{PropValue};
ghost use Rattle.net_hier.specs.Cells.{IsBitOrConstant, IsLocallyConnected};
ghost use Rattle.net_hier.specs.Facts.{HasLastValue, HasNetValue, SameValues};
ghost use Rattle.net_hier.specs.SameCells.{NeedsConstant};
ghost use Rattle.net_hier.specs.Valid.{Each, IsJoinOf};
ghost use Rattle.net_hier.specs.declared.cells.HCell.{HCell};
ghost use Rattle.net_hier.specs.declared.cells.HNet.{HNet};
ghost use Rattle.net_hier.specs.declared.cells.HProp.{HProp};
ghost use Rattle.net_hier.specs.declared.nodes.Node.{Node};
ghost use Rattle.net_bits.specs.Classes.{AreClasses, ClassTable, class_of, members_of};
ghost use Rattle.net_stars.specs.Nets.{stars};
ghost use Rattle.net_stars.specs.StandIns.{StandsFor};
ghost use Rattle.net_stars.specs.Stars.{IsBit};
ghost use Rattle.net_live.specs.Last.{last_of};
ghost use Rattle.net_live.specs.Live.{AreLiveClasses, class_props, ends_of, is_bit, is_live, needs_constant};

/// What is kept of a list of properties gives each name the same last value.
pub fn last_values_are_kept()
    ensures { (props : List HProp) → SameValues props (last_of props) }
{}

/// A cell needs a constant exactly where the test says so.
pub fn a_constant_is_needed()
    ensures { (cells : List HCell) (cell : HCell) (classes : ClassTable) → AreClasses cell classes
        → Each (IsJoinOf cells cell) cell.joins → (value : Bool)
        → (needs_constant classes value ≡ true) ↔ NeedsConstant cells cell value }
{}

/// What nets give a bit is the last value in the properties of the nets of its class, one after another; and that class is live.
pub fn a_class_gives_values()
    ensures values { (cell : HCell) (classes : ClassTable) → AreClasses cell classes
        → (x : Node) (class : ℕ) → is_bit x ≡ true → class_of classes x ≡ Some class
        → (name : List ℕ) (value : PropValue)
        → HasNetValue cell x name value
        ↔ HasLastValue (class_props cell.nets (members_of classes class)) name value }
    ensures live { (cell : HCell) (classes : ClassTable) → AreClasses cell classes
        → (x : Node) (name : List ℕ) (value : PropValue) → is_bit x ≡ true
        → HasNetValue cell x name value
        → (class : ℕ) × (class_of classes x ≡ Some class)
        × (is_live cell.nets (members_of classes class) ≡ true) }
{}

/// Two of the port bits, pin bits and constants of a cell that are connected are in one class, and that is live.
pub fn connected_ends_share_a_live_class()
    ensures { (cells : List HCell) (cell : HCell) (classes : ClassTable) → AreClasses cell classes
        → (x y : Node) → IsBitOrConstant cells cell x → IsBitOrConstant cells cell y → x ≢ y
        → IsLocallyConnected cell x y
        → (class : ℕ) × (class_of classes x ≡ Some class) × (class_of classes y ≡ Some class)
        × (is_live cell.nets (members_of classes class) ≡ true) }
{}

/// A partner whose nets join the port bits, pin bits and constants of the live classes, each net those of one class, connects these as the
/// cell does, and its nets give them the same values of properties where each has the last values of those of the nets of its class.
pub fn live_classes_keep_a_cell()
    ensures connection { (cells : List HCell) (cell : HCell) (classes : ClassTable)
        → AreClasses cell classes → Each (IsJoinOf cells cell) cell.joins → (live : List ℕ)
        → AreLiveClasses cell.nets classes live → (partner : HCell) (stand : Node → Node)
        → StandsFor cells cell stand
        → partner.joins ≡ stars (map (map stand) (map (ends_of classes) live))
        → ((place class : ℕ) → slice_get live place ≡ Some class
        → (net : HNet) × (slice_get partner.nets place ≡ Some net)
        × SameValues (class_props cell.nets (members_of classes class)) net.props)
        → (x y : Node) → IsBitOrConstant cells cell x → IsBitOrConstant cells cell y
        → IsLocallyConnected cell x y ↔ IsLocallyConnected partner (stand x) (stand y) }
    ensures values { (cells : List HCell) (cell : HCell) (classes : ClassTable)
        → AreClasses cell classes → Each (IsJoinOf cells cell) cell.joins → (live : List ℕ)
        → AreLiveClasses cell.nets classes live → (partner : HCell) (stand : Node → Node)
        → StandsFor cells cell stand
        → partner.joins ≡ stars (map (map stand) (map (ends_of classes) live))
        → ((place class : ℕ) → slice_get live place ≡ Some class
        → (net : HNet) × (slice_get partner.nets place ≡ Some net)
        × SameValues (class_props cell.nets (members_of classes class)) net.props) → (x : Node)
        → IsBit cells cell x → (name : List ℕ) (value : PropValue)
        → HasNetValue cell x name value ↔ HasNetValue partner (stand x) name value }
{}
