// The law of designs that are flattened.
ghost use Rattle.std.specs.Prelude.{ℕ, ◌≡◌, List};
ghost use Rattle.flat_classes.specs.Terminals.{AreFlatClasses, FlatValue};
ghost use Rattle.flat_classes.specs.Ways.{ArePaths};
ghost use Rattle.net_flatten_one.specs.Parts.{HasParts};
ghost use Rattle.net_flatten_rules.specs.FlatDesign.{IsFlattened};
ghost use Rattle.net_flatten_rules.specs.Rules.{refusals};
ghost use Rattle.net_hier.specs.Constants.{ConstantNames};
ghost use Rattle.net_hier.specs.Design.{Design};
ghost use Rattle.net_hier.specs.Paths.{Path};
ghost use Rattle.net_hier.specs.Valid.{IsValid};
ghost use Rattle.net_hier.specs.declared.cells.HCell.{HCell};
ghost use Rattle.net_hier.specs.declared.cells.HProp.{HProp};

/// Valid designs with the same cells, top and properties are one design, which has one list of refusals and one flattened design.
pub fn flattening_is_one()
    ensures design { (cells : List HCell) (top : ℕ) (props : List HProp) (design other : Design)
        → HasParts cells top props design → HasParts cells top props other
        → IsValid design → IsValid other → design ≡ other }
    ensures refusals { (names : ConstantNames) (design : Design) (a b : FlatValue)
        → (apaths bpaths : List Path) → IsValid design
        → AreFlatClasses names design a → AreFlatClasses names design b
        → ArePaths design.cells a.spots apaths → ArePaths design.cells b.spots bpaths
        → refusals design apaths a ≡ refusals design bpaths b }
    ensures flattened { (names : ConstantNames) (design a b : Design) → IsValid design
        → IsFlattened names design a.cells a.top a.props
        → IsFlattened names design b.cells b.top b.props
        → HasParts a.cells a.top a.props b }
{}
