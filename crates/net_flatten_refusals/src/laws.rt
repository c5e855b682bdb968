// What the names of a flattened design without refusals are.
ghost use Rattle.std.specs.Prelude.{ℕ, ◌≡◌, List, []};
ghost use Rattle.flat_classes.specs.Terminals.{FlatValue};
ghost use Rattle.net_flatten_refusals.specs.Named.{HasShortNames, HaveOwnJoinedNames, HaveShortNames};
ghost use Rattle.net_flatten_rules.specs.FlatDesign.{flat_cells, inner};
ghost use Rattle.net_flatten_rules.specs.Rules.{refusals};
ghost use Rattle.net_hier.specs.Design.{Design};
ghost use Rattle.net_hier.specs.Paths.{Path};
ghost use Rattle.net_hier.specs.Valid.{Each};

/// Where there is no refusal, the joined names of the leaves below the top differ, the names of the
/// flattened cells other than those of their nets have at most 1,024 bytes, and so do the names of
/// the design's properties.
pub fn names_without_refusals()
    ensures own { (design : Design) (paths : List Path) (flat : FlatValue) →
        refusals design paths flat ≡ [] → HaveOwnJoinedNames paths (inner flat.leaves) }
    ensures short { (design : Design) (paths : List Path) (flat : FlatValue) →
        refusals design paths flat ≡ [] → Each HasShortNames (flat_cells design paths flat) }
    ensures props { (design : Design) (paths : List Path) (flat : FlatValue) →
        refusals design paths flat ≡ [] → HaveShortNames design.props }
{}
