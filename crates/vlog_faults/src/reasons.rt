// The reasons of first faults.
ghost use Rattle.std.specs.Prelude.{◌≡◌, ℕ, Bool, Err, List};
ghost use Rattle.grammar.specs.Reading.{refused, read};
ghost use Rattle.grammar.specs.Whole.{Terminal};
ghost use Rattle.nl_base.specs.declared.place.Place.{Place};
ghost use Rattle.nl_base.specs.declared.fault.Reason.{Reason};
ghost use Rattle.nl_base.specs.declared.fault.TextFault.{TextFault};
ghost use Rattle.vlog_tokens.specs.declared.token.VFound.{VFound};
ghost use Rattle.vlog_exprs.specs.Grammar.{expr, constant, attrs};
ghost use Rattle.vlog_modules.specs.AnyLength.{VlogFails};
ghost use Rattle.vlog_faults.specs.Fitting.{Fits, HasReason};

/// A first fault of bytes of any length has a reason that fits.
pub fn first_faults_fit()
    ensures { (bytes : List ℕ) (fault : TextFault) → VlogFails bytes fault → HasReason bytes fault }
{}

/// A token of an expression is refused for a reason that fits it.
pub fn expression_reasons_fit()
    ensures { (left : Bool) (room : ℕ) (tokens : List (Terminal VFound Place))
        (x : Terminal VFound Place) (reason : Reason)
        → read tt (expr left room) tokens ≡ Err (refused x reason) → Fits x reason }
{}

/// A token of a constant is refused for a reason that fits it.
pub fn constant_reasons_fit()
    ensures { (tokens : List (Terminal VFound Place)) (x : Terminal VFound Place) (reason : Reason)
        → read tt constant tokens ≡ Err (refused x reason) → Fits x reason }
{}

/// A token of attributes is refused for a reason that fits it.
pub fn attribute_reasons_fit()
    ensures { (tokens : List (Terminal VFound Place)) (x : Terminal VFound Place) (reason : Reason)
        → read tt attrs tokens ≡ Err (refused x reason) → Fits x reason }
{}
