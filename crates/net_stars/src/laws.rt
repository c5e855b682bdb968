// The laws of stars.
ghost use Rattle.std.specs.Prelude.{◌≡◌, ℕ, ◌↔◌, Bool, List, Option, map};
ghost use Rattle.nl_base.specs.declared.value.PropValue.{PropValue};
ghost use Rattle.net_hier.specs.Cells.{IsBitOrConstant, IsLocallyConnected};
ghost use Rattle.net_hier.specs.Facts.{HasNetValue};
ghost use Rattle.net_hier.specs.SameCells.{stand_in};
ghost use Rattle.net_hier.specs.declared.cells.HCell.{HCell};
ghost use Rattle.net_hier.specs.declared.nodes.Node.{Node};
ghost use Rattle.net_stars.specs.Nets.{AreLiveLists, stars};
ghost use Rattle.net_stars.specs.StandIns.{AreAddedAfter, StandsFor, itself};
ghost use Rattle.net_stars.specs.Stars.{AreHubs, AreWires, HasHub, Hubs, IsBit, JoinsHubs};

/// A partner whose joins lead from what stands for the terminals of a cell to their hubs connects these as the cell does.
pub fn stars_connect_the_same()
    ensures { (cells : List HCell) (cell partner : HCell) (stand : Node → Node) (hubs : Hubs)
        → StandsFor cells cell stand → AreHubs cells cell stand (HasHub hubs)
        → JoinsHubs cells cell partner stand (HasHub hubs) → (x y : Node)
        → IsBitOrConstant cells cell x → IsBitOrConstant cells cell y
        → IsLocallyConnected cell x y ↔ IsLocallyConnected partner (stand x) (stand y) }
{}

/// Where the nets that are hubs have the properties that the nets of their classes give, each bit has the same properties of nets.
pub fn wires_keep_properties()
    ensures { (cells : List HCell) (cell partner : HCell) (stand : Node → Node) (hubs : Hubs)
        → StandsFor cells cell stand → AreHubs cells cell stand (HasHub hubs)
        → JoinsHubs cells cell partner stand (HasHub hubs)
        → AreWires cells cell partner (HasHub hubs) → (x : Node) → IsBit cells cell x
        → (name : List ℕ) (value : PropValue)
        → HasNetValue cell x name value ↔ HasNetValue partner (stand x) name value }
{}

/// A partner whose nets join the classes of a cell connects what stands for the cell's port bits, pin bits and constants exactly where
/// the cell connects these.
pub fn nets_keep_the_connection()
    ensures { (cells : List HCell) (cell partner : HCell) (lists : List (List Node))
        (stand : Node → Node) → AreLiveLists cells cell lists → StandsFor cells cell stand
        → partner.joins ≡ stars (map (map stand) lists) → (x y : Node)
        → IsBitOrConstant cells cell x → IsBitOrConstant cells cell y
        → IsLocallyConnected cell x y ↔ IsLocallyConnected partner (stand x) (stand y) }
{}

/// Port bits, pin bits and constants stand for themselves.
pub fn terminals_stand_for_themselves()
    ensures { (cells : List HCell) (cell : HCell) → StandsFor cells cell itself }
{}

/// The pins of instances that are added for the constants stand for these.
pub fn added_pins_stand_for_constants()
    ensures { (cells : List HCell) (cell : HCell) (added : Bool → Option ℕ)
        → AreAddedAfter cell added → StandsFor cells cell (stand_in added) }
{}
