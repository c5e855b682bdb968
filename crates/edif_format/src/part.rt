// The lines of a part that is read whole.
ghost use Rattle.std.specs.Prelude.{◌≤◌, ◌+◌};
ghost use Rattle.nl_output.specs.Writing.{state, Puts};
ghost use Rattle.edif_writer.specs.Layout.{laid};

use edif_writer::OnLines;
use nl_io::Sink;
use nl_output::Output;

/// Puts the lines of a part, which is not kept.
pub(crate) fn put_part<T: OnLines + Drop, O: Sink>(
    part: T,
    indent: usize,
    output: &mut Output,
    sink: &mut O,
)
    requires { indent + T.depth ≤ 16 }
    ensures { Puts (laid indent (T.block part))
        (state O.receipt sink.old output.old) (state O.receipt sink.new output.new) }
{
    part.lay(indent, output, sink);
}
