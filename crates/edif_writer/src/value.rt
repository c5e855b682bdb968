ghost use Rattle.edif_writer.specs.Forms.{flag_form, scaled_form, value_form};
ghost use Rattle.edif_writer.specs.Layout.{Number, Str, Word, inline};
ghost use Rattle.edif_writer.specs.Strings.{PutsUntil};
ghost use Rattle.std.specs.Prelude.{◌∷◌};
ghost use Rattle.nl_output.specs.Writing.{state, Puts};

use crate::forms::OnLine;
use crate::string::{write_runs, write_string};
use nl_base::{Ident, Int, PropValue, Scaled, Text};
use nl_io::Sink;
use nl_output::Output;

impl OnLine for Ident {
    ghost form = { Word };

    fn write<O: Sink>(&self, output: &mut Output, sink: &mut O) {
        output.put(self.bytes(), sink);
    }
}

impl OnLine for Text {
    ghost form = { Str };

    fn write<O: Sink>(&self, output: &mut Output, sink: &mut O) {
        write_string(self.bytes(), output, sink);
    }
}

impl OnLine for Int {
    ghost form = { Number };

    fn write<O: Sink>(&self, output: &mut Output, sink: &mut O) {
        output.put_int(self, sink);
    }
}

impl OnLine for Scaled {
    ghost form = { scaled_form };

    fn write<O: Sink>(&self, output: &mut Output, sink: &mut O) {
        if self.exponent.value() == 0 {
            self.mantissa.write(output, sink);
            return;
        }
        output.put(b"(e ", sink);
        self.mantissa.write(output, sink);
        output.put(b" ", sink);
        self.exponent.write(output, sink);
        output.put(b")", sink);
    }
}

/// `(true)` or `(false)`.
fn write_flag<O: Sink>(flag: bool, output: &mut Output, sink: &mut O)
    ensures { Puts (inline (flag_form flag))
        (state O.receipt sink.old output.old) (state O.receipt sink.new output.new) }
{
    if flag {
        output.put(b"(true)", sink);
        return;
    }
    output.put(b"(false)", sink);
}

/// The value of a property, after a blank; its `)` is still to come.
pub(crate) fn write_value<O: Sink>(value: &PropValue, output: &mut Output, sink: &mut O)
    ensures { PutsUntil (λ rest. 32 ∷ inline (value_form value.now) rest) (λ rest. 41 ∷ rest)
        (state O.receipt sink.old output.old) (state O.receipt sink.new output.new) }
{
    match value {
        PropValue::Str(text) => {
            output.put(b" (string \"", sink);
            write_runs(text.bytes(), output, sink);
            output.put(b"\"", sink);
        }
        PropValue::Int(number) => {
            output.put(b" (integer ", sink);
            output.put_int(number, sink);
        }
        PropValue::Flag(flag) => {
            output.put(b" (boolean ", sink);
            write_flag(*flag, output, sink);
        }
        PropValue::Scaled(scaled) => {
            output.put(b" (number ", sink);
            scaled.write(output, sink);
        }
    }
}
