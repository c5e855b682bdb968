// The law of refusals.
ghost use Rattle.std.specs.Prelude.{◌≡◌, List};
ghost use Rattle.net_hier.specs.declared.cells.HCell.{HCell};
ghost use Rattle.to_spice_rules.specs.Answers.{IsFirstRefusal, KeepsRules};
ghost use Rattle.to_spice_rules.specs.declared.refusal.SpiceRefusal.{SpiceRefusal as RefusalValue};

/// At most one refusal comes of the cells of a design, and none where they keep the rules.
pub fn one_refusal_comes_of_a_design()
    ensures one { (cells : List HCell) (refusal other : RefusalValue) → IsFirstRefusal cells refusal
        → IsFirstRefusal cells other → refusal ≡ other }
    ensures broken { (cells : List HCell) (refusal : RefusalValue) → IsFirstRefusal cells refusal
        → ¬ KeepsRules cells }
{}
