// The laws of generated files.
ghost use Rattle.std.specs.Prelude.{◌≡◌, ◌<◌, ◌≤◌, ◌-◌, ◌^◌, ℕ, Bool, [], None};
ghost use Rattle.edif_design.specs.Design.{edif_design};
ghost use Rattle.edif_design.specs.FileRules.{first_E};
ghost use Rattle.edif_values.specs.Values.{IsEdifValue};
ghost use Rattle.net_hier.specs.Units.{units};
ghost use Rattle.net_hier.specs.Valid.{unit_limit};
ghost use Rattle.to_verilog_rules.specs.Rules.{first_V};
ghost use Rattle.vectors.specs.Files.{generated};
ghost use Rattle.vectors_laws.specs.Designs.{design_cells};
ghost use Rattle.vectors_laws.specs.Leaves.{LeafCount};
ghost use Rattle.vlog_design.specs.Names.{Name};

/// A generated file can be written.
pub fn generated_files_are_values()
    ensures { (seed cells : ℕ) → cells ≤ 2 ^ 64 → IsEdifValue (generated seed cells) }
{}

/// The design of a generated file has all its cells, the last one at the top, and no properties of its own.
pub fn designs_of_generated_files()
    ensures cells { (seed cells : ℕ) → 0 < cells → cells ≤ 2 ^ 64
        → (edif_design (generated seed cells)).cells ≡ design_cells seed cells }
    ensures top { (seed cells : ℕ) → 0 < cells → cells ≤ 2 ^ 64
        → (edif_design (generated seed cells)).top ≡ cells - 1 }
    ensures props { (seed cells : ℕ) → 0 < cells → cells ≤ 2 ^ 64
        → (edif_design (generated seed cells)).props ≡ [] }
{}

/// A generated file breaks no rule.
pub fn generated_files_break_no_rule()
    ensures { (seed cells : ℕ) → 0 < cells → cells ≤ 2 ^ 64
        → first_E (generated seed cells) ≡ None }
{}

/// The design of a generated file is within the limit of a design.
pub fn generated_designs_fit()
    ensures { (seed cells : ℕ) → 0 < cells → cells ≤ 3000000
        → units (edif_design (generated seed cells)).cells ≤ unit_limit }
{}

/// The design of a generated file breaks no rule of Verilog as a target, whichever names are those of parameters.
pub fn generated_designs_can_be_translated()
    ensures { (seed cells : ℕ) (is_param : Name → Bool) → 0 < cells → cells ≤ 2 ^ 64
        → first_V (edif_design (generated seed cells)).cells (edif_design (generated seed cells)).top
        (edif_design (generated seed cells)).props is_param ≡ None }
{}

/// The design of a generated file has twice as many leaves for each cell behind the first.
pub fn generated_leaves()
    ensures { (seed cells : ℕ) → 0 < cells → cells ≤ 2 ^ 64
        → LeafCount (edif_design (generated seed cells)).cells
        (edif_design (generated seed cells)).top (2 ^ (cells - 1)) }
{}
