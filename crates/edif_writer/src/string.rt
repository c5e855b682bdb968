ghost use Rattle.std.specs.Prelude.{◌≡◌, ◌∷◌, ◌<◌, ◌≤◌, false, length, not};
ghost use Rattle.std.specs.List.{prefix_len};
ghost use Rattle.edif_writer.specs.Strings.{codes_text, escape_text, is_plain, quoted, written, PutsUntil};
ghost use Rattle.nl_output.specs.Writing.{state, Puts};

use nl_io::Sink;
use nl_output::Output;

/// Whether a byte stands for itself in a written string.
#[tactic(auto, unfolding(crate::specs::Strings::is_plain))]
fn is_plain(byte: u8) -> bool
    ensures { result ≡ is_plain byte }
{
    32 <= byte && byte <= 126 && byte != b'"' && byte != b'%'
}

/// How many bytes from the front on stand for themselves.
fn plain_front(bytes: &[u8]) -> usize
    ensures count { result ≡ prefix_len is_plain bytes.now }
    ensures within { result ≤ length bytes.now }
{
    let mut n = 0;
    while n < bytes.len() && is_plain(bytes[n]) {
        n += 1;
    }
    n
}

/// How many bytes from the front on do not stand for themselves.
fn other_front(bytes: &[u8]) -> usize
    ensures count { result ≡ prefix_len (λ b. not (is_plain b)) bytes.now }
    ensures within { result ≤ length bytes.now }
{
    let mut n = 0;
    while n < bytes.len() && !is_plain(bytes[n]) {
        n += 1;
    }
    n
}

/// Further codes of an escape.
fn write_codes<O: Sink>(bytes: &[u8], output: &mut Output, sink: &mut O)
    ensures { Puts (codes_text bytes.now)
        (state O.receipt sink.old output.old) (state O.receipt sink.new output.new) }
{
    for byte in bytes {
        output.put(b" ", sink);
        output.put_u64(*byte as u64, sink);
    }
}

/// An escape of these bytes, if there are any.
fn write_escape<O: Sink>(bytes: &[u8], output: &mut Output, sink: &mut O)
    ensures { Puts (escape_text bytes.now)
        (state O.receipt sink.old output.old) (state O.receipt sink.new output.new) }
{
    if let [first, others @ ..] = bytes {
        output.put(b"%", sink);
        output.put_u64(*first as u64, sink);
        write_codes(others, output, sink);
        output.put(b"%", sink);
    }
}

/// The bytes in front that stand for themselves, and an escape of those behind them that do not; the bytes behind both are answered.
fn write_run<'a, O: Sink>(bytes: &'a [u8], output: &mut Output, sink: &mut O) -> &'a [u8]
    requires { 0 < length bytes.now }
    ensures shorter { length result.now < length bytes.now }
    ensures puts { PutsUntil (written false bytes.now) (written false result.now)
        (state O.receipt sink.old output.old) (state O.receipt sink.new output.new) }
{
    let (plain, behind) = bytes.split_at(plain_front(bytes));
    output.put(plain, sink);
    let (codes, rest) = behind.split_at(other_front(behind));
    write_escape(codes, output, sink);
    rest
}

/// The bytes of a string, of which the quote at its end is still to come.
pub(crate) fn write_runs<O: Sink>(bytes: &[u8], output: &mut Output, sink: &mut O)
    ensures { PutsUntil (written false bytes.now) (λ rest. 34 ∷ rest)
        (state O.receipt sink.old output.old) (state O.receipt sink.new output.new) }
{
    let mut rest = bytes;
    while !rest.is_empty() {
        rest = write_run(rest, output, sink);
    }
}

/// A string in quotes (EDIF 2 0 0, stringToken).
pub fn write_string<O: Sink>(bytes: &[u8], output: &mut Output, sink: &mut O)
    ensures { Puts (quoted bytes.now)
        (state O.receipt sink.old output.old) (state O.receipt sink.new output.new) }
{
    output.put(b"\"", sink);
    write_runs(bytes, output, sink);
    output.put(b"\"", sink);
}
