// The reasons of first faults.
ghost use Rattle.std.specs.Prelude.{◌↔◌, ℕ, List};
ghost use Rattle.nl_base.specs.declared.fault.TextFault.{TextFault};
ghost use Rattle.edif_library.specs.Text.{EdifFault};
ghost use Rattle.edif_library.specs.AnyLength.{EdifFails};
ghost use Rattle.edif_reasons.specs.FirstFault.{FailsByTable, FailsEarlyByTable};

/// Bytes of any length have a first fault exactly where they have it by the table of reasons.
pub fn first_faults_fit()
    ensures { (bytes : List ℕ) (fault : TextFault) → EdifFails bytes fault
        ↔ FailsByTable bytes fault }
{}

/// Told of an input is that first fault, exactly where its stop is within the limit.
pub fn told_faults_fit()
    ensures { (bytes : List ℕ) (fault : TextFault) → EdifFault bytes fault
        ↔ FailsEarlyByTable bytes fault }
{}
