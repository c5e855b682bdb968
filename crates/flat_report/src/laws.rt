// The law of reports.
ghost use Rattle.std.specs.Prelude.{ℕ, ◌≡◌, List};
ghost use Rattle.flat_report.specs.Report.{IsReport};
ghost use Rattle.net_hier.specs.Constants.{ConstantNames};
ghost use Rattle.net_hier.specs.Design.{Design};
ghost use Rattle.net_hier.specs.Valid.{IsValid};

/// A valid design has one report.
pub fn designs_have_one_report()
    ensures { (names : ConstantNames) (design : Design) (a b : List ℕ) → IsValid design →
        IsReport names design a → IsReport names design b → a ≡ b }
{}
