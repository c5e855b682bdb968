ghost use Rattle.std.specs.Prelude.{◌≡◌, ◌≤◌, length};
ghost use Rattle.std.specs.List.{list_all};
ghost use Rattle.nl_bytes.specs.Classes.{is_name_byte};
ghost use Rattle.vlog_writer.specs.Layout.{Name};
ghost use Rattle.vlog_writer.specs.Spelling.{is_bare, is_simple, named};
ghost use Rattle.nl_output.specs.Writing.{state, Puts};

use crate::forms::OnLine;
use nl_base::Text;
use nl_bytes::Class;
use nl_io::Sink;
use nl_output::Output;
use vlog_tokens::is_keyword;

/// Whether a byte goes on in a simple identifier.
fn is_name_byte(byte: u8) -> bool
    ensures { result ≡ is_name_byte byte }
{
    Class::NameByte.contains(byte)
}

/// Whether all bytes go on in a simple identifier.
fn are_name_bytes(bytes: &[u8]) -> bool
    ensures { result ≡ list_all is_name_byte bytes.now }
{
    for byte in bytes {
        if !is_name_byte(*byte) {
            return false;
        }
    }
    true
}

/// Whether a name is a simple identifier (IEEE 1364-2005, 3.7).
#[tactic(auto, unfolding(crate::specs::Spelling::is_simple))]
fn is_simple(name: &[u8]) -> bool
    ensures { result ≡ is_simple name.now }
{
    match name {
        [first, others @ ..] => {
            (first.is_ascii_alphabetic() || *first == b'_') && are_name_bytes(others)
        }
        [] => false,
    }
}

/// Whether a name is written as itself.
#[tactic(auto, unfolding(crate::specs::Spelling::is_bare))]
fn is_bare(name: &[u8]) -> bool
    ensures { result ≡ is_bare name.now }
{
    is_simple(name) && !is_keyword(name)
}

/// A name: as itself, or as an escaped identifier (IEEE 1364-2005, 3.7.1).
pub fn write_name<O: Sink>(name: &[u8], output: &mut Output, sink: &mut O)
    ensures { Puts (named name.now)
        (state O.receipt sink.old output.old) (state O.receipt sink.new output.new) }
{
    if is_bare(name) {
        output.put(name, sink);
        return;
    }
    output.put(b"\\", sink);
    output.put(name, sink);
    output.put(b" ", sink);
}

impl OnLine for Text {
    ghost form = { Name };

    fn write<O: Sink>(&self, output: &mut Output, sink: &mut O) {
        write_name(self.bytes(), output, sink);
    }
}
