ghost use Rattle.std.specs.Prelude.{◌∷◌, ◌++◌, if◌then◌else◌};
ghost use Rattle.std.specs.Fmt.{signed_decimal};
ghost use Rattle.vlog_values.specs.Spelling.{base_letter, based_spelling, literal_spelling};
ghost use Rattle.vlog_writer.specs.Layout.{Number, Real};
ghost use Rattle.vlog_writer.specs.Spelling.{real_text};
ghost use Rattle.nl_output.specs.Writing.{state, Puts};

use nl_base::{Int, Scaled, Text};
use nl_io::Sink;
use nl_output::Output;
use vlog_values::{Base, Based, Literal};

/// An index of a bit, with a `-` where it is negative.
pub(crate) fn put_index<O: Sink>(index: i32, output: &mut Output, sink: &mut O)
    ensures { Puts (λ rest. signed_decimal index ++ rest)
        (state O.receipt sink.old output.old) (state O.receipt sink.new output.new) }
{
    if index < 0 {
        let magnitude = -i64::from(index);
        output.put_int(&Int::signed(true, magnitude as u64), sink);
        return;
    }
    output.put_u64(index as u64, sink);
}

/// A real: its mantissa, `e` and its exponent (IEEE 1364-2005, 3.5.2).
pub(crate) fn write_real<O: Sink>(real: &Scaled, output: &mut Output, sink: &mut O)
    ensures { Puts (real_text real.now)
        (state O.receipt sink.old output.old) (state O.receipt sink.new output.new) }
{
    output.put_int(&real.mantissa, sink);
    output.put(b"e", sink);
    output.put_int(&real.exponent, sink);
}

/// What a based literal begins with: `'`, and `s` where it is signed.
fn put_quote<O: Sink>(signed: bool, output: &mut Output, sink: &mut O)
    ensures { Puts (λ rest. 39 ∷ (if signed then 115 ∷ rest else rest))
        (state O.receipt sink.old output.old) (state O.receipt sink.new output.new) }
{
    if signed {
        output.put(b"'s", sink);
        return;
    }
    output.put(b"'", sink);
}

/// The letter of a base.
fn put_base<O: Sink>(base: Base, output: &mut Output, sink: &mut O)
    ensures { Puts (λ rest. base_letter base ∷ rest)
        (state O.receipt sink.old output.old) (state O.receipt sink.new output.new) }
{
    match base {
        Base::Binary => output.put(b"b", sink),
        Base::Octal => output.put(b"o", sink),
        Base::Decimal => output.put(b"d", sink),
        Base::Hex => output.put(b"h", sink),
    }
}

/// The digits of a based literal, as they stand.
fn put_digits<O: Sink>(digits: &Text, output: &mut Output, sink: &mut O)
    ensures { Puts (λ rest. digits.now ++ rest)
        (state O.receipt sink.old output.old) (state O.receipt sink.new output.new) }
{
    output.put(digits.bytes(), sink);
}

/// A based literal without a size (IEEE 1364-2005, 3.5.1).
pub(crate) fn write_based<O: Sink>(based: &Based, output: &mut Output, sink: &mut O)
    ensures { Puts (λ rest. based_spelling based.now ++ rest)
        (state O.receipt sink.old output.old) (state O.receipt sink.new output.new) }
{
    put_quote(based.signed, output, sink);
    put_base(based.base, output, sink);
    put_digits(&based.digits, output, sink);
}

/// A based literal (IEEE 1364-2005, 3.5.1).
pub(crate) fn write_literal<O: Sink>(literal: &Literal, output: &mut Output, sink: &mut O)
    ensures { Puts (λ rest. literal_spelling literal.now ++ rest)
        (state O.receipt sink.old output.old) (state O.receipt sink.new output.new) }
{
    output.put_u64(u64::from(literal.size), sink);
    write_based(&literal.based, output, sink);
}
