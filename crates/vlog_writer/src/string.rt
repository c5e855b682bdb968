ghost use Rattle.std.specs.Prelude.{◌≡◌, ◌-◌, ◌<◌, ◌≤◌, ◌++◌, length};
ghost use Rattle.std.specs.List.{prefix_len};
ghost use Rattle.vlog_writer.specs.Spelling.{escape_of, is_plain, octal, quoted, string_byte, written, PutsUntil};
ghost use Rattle.nl_output.specs.Writing.{state, Puts};

use nl_io::Sink;
use nl_output::Output;

/// Whether a byte stands for itself in a written string.
#[tactic(auto, unfolding(crate::specs::Spelling::is_plain))]
fn is_plain(byte: u8) -> bool
    ensures { result ≡ is_plain byte }
{
    32 <= byte && byte <= 126 && byte != b'"' && byte != b'\\'
}

/// How many bytes from the front on stand for themselves.
fn plain_front(bytes: &[u8]) -> usize
    ensures count { result ≡ prefix_len is_plain bytes.now }
    ensures within { result ≤ length bytes.now }
{
    let mut n = 0;
    while n < bytes.len() && is_plain(bytes[n]) {
        n += 1;
    }
    n
}

/// The three octal digits of a byte.
fn put_octal<O: Sink>(byte: u8, output: &mut Output, sink: &mut O)
    ensures { Puts (λ rest. octal byte ++ rest)
        (state O.receipt sink.old output.old) (state O.receipt sink.new output.new) }
{
    let digits = [b'0' + byte / 64, b'0' + byte / 8 % 8, b'0' + byte % 8];
    output.put(&digits, sink);
}

/// What stands for a byte behind a `\`.
fn put_escape<O: Sink>(byte: u8, output: &mut Output, sink: &mut O)
    ensures { Puts (λ rest. escape_of byte ++ rest)
        (state O.receipt sink.old output.old) (state O.receipt sink.new output.new) }
{
    if byte == b'"' || byte == b'\\' {
        output.put(&[byte], sink);
        return;
    }
    if byte == b'\n' {
        output.put(b"n", sink);
        return;
    }
    if byte == b'\t' {
        output.put(b"t", sink);
        return;
    }
    put_octal(byte, output, sink);
}

/// A byte of a string.
#[tactic(auto, unfolding(crate::specs::Spelling::string_byte))]
fn put_byte<O: Sink>(byte: u8, output: &mut Output, sink: &mut O)
    ensures { Puts (λ rest. string_byte byte ++ rest)
        (state O.receipt sink.old output.old) (state O.receipt sink.new output.new) }
{
    if is_plain(byte) {
        output.put(&[byte], sink);
        return;
    }
    output.put(b"\\", sink);
    put_escape(byte, output, sink);
}

/// The byte in front, if there is one; the bytes behind it are answered.
fn put_front<'a, O: Sink>(bytes: &'a [u8], output: &mut Output, sink: &mut O) -> &'a [u8]
    ensures shorter { length result.now ≤ length bytes.now - 1 }
    ensures puts { PutsUntil (written bytes.now) (written result.now)
        (state O.receipt sink.old output.old) (state O.receipt sink.new output.new) }
{
    match bytes {
        [first, others @ ..] => {
            put_byte(*first, output, sink);
            others
        }
        [] => bytes,
    }
}

/// The bytes in front that stand for themselves, and the byte behind them; the bytes behind both are answered.
fn write_run<'a, O: Sink>(bytes: &'a [u8], output: &mut Output, sink: &mut O) -> &'a [u8]
    requires { 0 < length bytes.now }
    ensures shorter { length result.now < length bytes.now }
    ensures puts { PutsUntil (written bytes.now) (written result.now)
        (state O.receipt sink.old output.old) (state O.receipt sink.new output.new) }
{
    let (plain, behind) = bytes.split_at(plain_front(bytes));
    output.put(plain, sink);
    let rest = put_front(behind, output, sink);
    rest
}

/// A string in quotes (IEEE 1364-2005, 3.6).
pub fn write_string<O: Sink>(bytes: &[u8], output: &mut Output, sink: &mut O)
    ensures { Puts (quoted bytes.now)
        (state O.receipt sink.old output.old) (state O.receipt sink.new output.new) }
{
    output.put(b"\"", sink);
    let mut rest = bytes;
    while !rest.is_empty() {
        rest = write_run(rest, output, sink);
    }
    output.put(b"\"", sink);
}
