// The law of what is said of files.
ghost use Rattle.std.specs.Prelude.{◌≡◌, ℕ, List};
ghost use Rattle.netlist_words.specs.declared.command.Command.{Command as CommandValue};
ghost use Rattle.netlist_cli.specs.Meanings.{FlattensNoVerilog, meaning_of};
ghost use Rattle.netlist_cli.specs.Outcomes.{Verdict};
ghost use Rattle.vlog_tokens.specs.Proper.{AreBytes};

/// For each command at most one thing is said of a file. It cannot be that nothing is said: of no file
/// by a command that does not flatten a Verilog file, and by no command of a file that bytes read as.
/// (A Verilog file that no bytes read as may break no rule and yet be that of no design.)
pub fn one_thing_is_said_of_a_file()
    ensures one { (c : CommandValue) → (file : (meaning_of c).question.language.File)
        → (verdict other : Verdict) → (meaning_of c).question.IsSaid file verdict
        → (meaning_of c).question.IsSaid file other → verdict ≡ other }
    ensures some { (c : CommandValue) → FlattensNoVerilog c
        → (file : (meaning_of c).question.language.File)
        → ¬ ¬ ((verdict : Verdict) × (meaning_of c).question.IsSaid file verdict) }
    ensures read { (c : CommandValue) (bytes : List ℕ) → AreBytes bytes
        → (file : (meaning_of c).question.language.File)
        → (meaning_of c).question.language.reads bytes file
        → ¬ ¬ ((verdict : Verdict) × (meaning_of c).question.IsSaid file verdict) }
{}
