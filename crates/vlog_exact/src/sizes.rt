// Numbers that are no size, at the end of the tokens.
ghost use Rattle.std.specs.Prelude.{◌≡◌, false, ℕ, ℤ};
ghost use Rattle.vlog_exprs.specs.Grammar.{expr, constant};
ghost use Rattle.vlog_exprs.specs.Reasons.{is_size};
ghost use Rattle.vlog_exact.specs.Sizes.{LooksOn};

/// As an expression such a number is a text that no token goes on with, and one more token is looked at.
pub fn expressions_look_on()
    ensures { (room : ℕ) (number : ℤ) → is_size number ≡ false → LooksOn (expr false room) number }
{}

/// As a constant, in the same way.
pub fn constants_look_on()
    ensures { (number : ℤ) → is_size number ≡ false → LooksOn constant number }
{}
