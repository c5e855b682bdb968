// The law of the findings.
ghost use Rattle.std.specs.Prelude.{ℕ, ◌≡◌, List};
ghost use Rattle.net_lint.specs.Lint.{IsLint};
ghost use Rattle.net_hier.specs.Constants.{ConstantNames};
ghost use Rattle.net_hier.specs.Design.{Design};
ghost use Rattle.net_hier.specs.Valid.{IsValid};

/// A valid design has one text of its findings.
pub fn designs_have_one_lint()
    ensures { (names : ConstantNames) (design : Design) (a b : List ℕ) → IsValid design →
        IsLint names design a → IsLint names design b → a ≡ b }
{}
