// The law of flattened designs.
ghost use Rattle.std.specs.Prelude.{◌≡◌, List, []};
ghost use Rattle.flat_classes.specs.Terminals.{AreFlatClasses, FlatValue};
ghost use Rattle.flat_classes.specs.Ways.{ArePaths};
ghost use Rattle.net_flatten_rules.specs.FlatDesign.{IsFlattened};
ghost use Rattle.net_flatten_rules.specs.Rules.{names_twice, refusals};
ghost use Rattle.net_flatten_rules.specs.SameFlat.{SameFlat};
ghost use Rattle.net_hier.specs.Constants.{ConstantNames};
ghost use Rattle.net_hier.specs.Design.{Design};
ghost use Rattle.net_hier.specs.Paths.{Path};
ghost use Rattle.net_hier.specs.Valid.{IsValid};

/// The flattened design of a valid design that breaks no rule of flattened designs is the design as
/// one cell of leaf instances. It is enough that no two leaves below the top have one joined name.
pub fn flattened_designs_are_the_same()
    ensures unrefused { (names : ConstantNames) (design made : Design)
        → (flat : FlatValue) (paths : List Path)
        → IsValid design → AreFlatClasses names design flat → ArePaths design.cells flat.spots paths
        → IsFlattened names design made.cells made.top made.props
        → refusals design paths flat ≡ [] → SameFlat names design made }
    ensures joined { (names : ConstantNames) (design made : Design)
        → (flat : FlatValue) (paths : List Path)
        → IsValid design → AreFlatClasses names design flat → ArePaths design.cells flat.spots paths
        → IsFlattened names design made.cells made.top made.props
        → names_twice design paths flat ≡ [] → SameFlat names design made }
{}
