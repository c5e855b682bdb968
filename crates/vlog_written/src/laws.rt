// The laws of plain modules.
ghost use Rattle.std.specs.Prelude.{◌≡◌, ◌↔◌, ℕ, List, ◌++◌, flat_map};
ghost use Rattle.nl_base.specs.declared.value.PropValue.{PropValue};
ghost use Rattle.net_hier.specs.Cells.{IsBitOrConstant, IsLocallyConnected};
ghost use Rattle.net_hier.specs.Facts.{HasNetValue};
ghost use Rattle.net_hier.specs.declared.cells.HCell.{HCell};
ghost use Rattle.net_hier.specs.declared.nodes.Node.{Node};
ghost use Rattle.net_stars.specs.StandIns.{itself};
ghost use Rattle.net_stars.specs.Stars.{AreHubs, AreWires, HasHub, Hubs, IsBit, JoinsHubs};
ghost use Rattle.vlog_design.specs.Design.{module_cell, module_joins};
ghost use Rattle.vlog_design.specs.Names.{signals};
ghost use Rattle.vlog_values.specs.declared.module.Module.{Module};
ghost use Rattle.vlog_written.specs.Hubs.{WritesHubs};
ghost use Rattle.vlog_written.specs.OwnNames.{AreApart};
ghost use Rattle.vlog_written.specs.Written.{PlainModule, assign_joins, instances_joins, plain_module, plain_signals};

/// The joins of a plain module are those of its assigns, and then those of its instances.
pub fn joins_of_plain_modules()
    ensures { (modules : List Module) (p : PlainModule)
        → module_joins modules (plain_module p)
        ≡ flat_map (assign_joins (signals (plain_module p))) p.assigns
        ++ instances_joins modules (signals (plain_module p)) 0 p.instances }
{}

/// A plain module that writes the hubs of a cell has joins between terminals and their hubs alone, and one for each terminal that is no hub.
pub fn plain_modules_are_stars()
    ensures { (cells : List HCell) (cell : HCell) (hubs : Hubs) (modules : List Module)
        (p : PlainModule) → WritesHubs cells cell hubs modules p
        → JoinsHubs cells cell (module_cell modules (plain_module p)) itself (HasHub hubs) }
{}

/// A plain module that writes the hubs of a cell, one for each local class, connects the terminals of the cell as the cell does, and gives
/// bits the same values where its wires have the properties of the nets of their classes.
pub fn plain_modules_keep_a_cell()
    ensures connection { (cells : List HCell) (cell : HCell) (hubs : Hubs) (modules : List Module)
        (p : PlainModule) → WritesHubs cells cell hubs modules p
        → AreHubs cells cell itself (HasHub hubs) → (x y : Node) → IsBitOrConstant cells cell x
        → IsBitOrConstant cells cell y
        → IsLocallyConnected cell x y
        ↔ IsLocallyConnected (module_cell modules (plain_module p)) x y }
    ensures values { (cells : List HCell) (cell : HCell) (hubs : Hubs) (modules : List Module)
        (p : PlainModule) → WritesHubs cells cell hubs modules p
        → AreHubs cells cell itself (HasHub hubs)
        → AreWires cells cell (module_cell modules (plain_module p)) (HasHub hubs) → (x : Node)
        → IsBit cells cell x → (name : List ℕ) (value : PropValue)
        → HasNetValue cell x name value
        ↔ HasNetValue (module_cell modules (plain_module p)) x name value }
{}

/// The names of a plain module stand for its ports and wires, each wire for the net of its number.
pub fn names_of_plain_modules()
    ensures { (p : PlainModule) → AreApart p → signals (plain_module p) ≡ plain_signals p }
{}
