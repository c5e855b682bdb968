ghost use Rattle.std.specs.Prelude.{◌≡◌};
ghost use Rattle.netlist_words.specs.declared.command.Command.TheVariants as commands;
ghost use Rattle.netlist_cli.specs.Designs.{Makes};
ghost use Rattle.netlist_cli.specs.Meanings.{meaning_of, ok_text};
ghost use Rattle.netlist_cli.specs.Outcomes.{fine};
ghost use Rattle.netlist_cli.specs.Runs.{Does, TakesFrom};

use crate::failure::{Failure, after_writing};
use crate::judging::judge_text;
use nl_base::Text;
use nl_io::{Sink, Source};
use nl_output::Output;
use std::alloc::Global;

/// Says that a file breaks no rule.
fn put_ok<O: Sink>(sink: &mut O) -> Result<(), Failure>
    ensures { Makes O.receipt (λ verdict. fine ≡ verdict)
        (λ text. text ≡ ok_text) sink.old sink.new result }
{
    let mut output = Output::new();
    output.put(b"ok\n", sink);
    let written = output.finish(sink);
    after_writing(written)
}

/// Reads a file and tells whether it breaks no rule and its design is within the limit: an EDIF file, or a Verilog file under the module of
/// this name.
pub fn check<S: Source, O: Sink>(
    alloc: Global,
    top: &Option<Text>,
    input: &mut S,
    output: &mut O,
) -> Result<(), Failure>
    ensures does { Does O.receipt (meaning_of (commands.Check top.now))
        (S.supply input.old) (S.supply input.new)
        output.old output.new result }
    ensures taken { TakesFrom
        (S.supply input.old) (S.supply input.new) }
{
    match judge_text(alloc, top, input) {
        Ok(()) => {
            let done = put_ok(output);
            done
        }
        Err(failure) => Err(failure),
    }
}
