// A source that does not fail.
ghost use Rattle.std.specs.Prelude.{◌≡◌, ◌<◌, Some, length, IfOk};
ghost use Rattle.std.specs.Io.{ReadsAtMost};
ghost use Rattle.std.specs.Io.KnownBytes.{ReadConsumes};
ghost use Rattle.nl_io.specs.Causes.{HasCause};
ghost use Rattle.nl_io.specs.Sources.{left_past, count_of};

use nl_base::NoMemory;
use nl_io::{Failed, MemSource, Source};
use std::alloc::Global;
use std::marker::Model;

/// A source in memory of which no take fails.
///
/// Seen as the bytes that are left.
#[derive(Drop)]
pub(crate) struct TextSource {
    source: MemSource,
}

impl Model for TextSource {
    ghost use Rattle.std.specs.Prelude.{◌≡◌, ℕ, List, []};
    ghost use Rattle.std.specs.List.{concat};

    ghost Value = { List ℕ };

    ghost view = { λ s. concat s.source.left };

    ghost invariant = { λ s. s.source.fails ≡ [] };
}

impl TextSource {
    /// Gives the bytes of a text.
    pub(crate) fn new(alloc: Global, text: Vec<u8>) -> Result<Self, NoMemory>
        ensures { IfOk result (λ source. source ≡ text.items) }
    {
        let mut pieces = Vec::new(alloc);
        pieces.push(text)?;
        Ok(TextSource {
            source: MemSource::new(pieces, Vec::new(alloc)),
        })
    }
}

impl Source for TextSource {
    ghost supply = { λ s. record { left = Some s; faults = 0 } };

    fn take(&mut self, buf: &mut [u8]) -> Result<usize, Failed>
        requires { 0 < length buf.old }
        ensures bound { ReadsAtMost result buf.new }
        ensures bytes { ReadConsumes (Some self.old) (Some self.new) result buf.new }
        ensures left { Some self.new ≡ left_past (count_of result) (Some self.old) }
        ensures cause { HasCause 0 0 result }
    {
        match self.source.take(buf) {
            Ok(count) => Ok(count),
            Err(_) => unreachable!(),
        }
    }
}
