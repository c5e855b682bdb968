// Words that are put together without memory.
ghost use Rattle.std.specs.Prelude.{◌≡◌, ◌+◌, ◌≤◌, ◌++◌, [], length, take, IfOk};

use nl_base::{NoMemory, Text};
use std::alloc::Global;
use std::marker::Model;

/// The most bytes of a word.
pub const ROOM: usize = 48;

/// A word of at most 48 bytes, which takes no memory. Contracts see its bytes.
#[derive(Drop)]
pub struct Word {
    bytes: [u8; ROOM],
    count: usize,
}

impl Model for Word {
    ghost use Rattle.std.specs.Prelude.{List, ℕ, ◌≤◌, take};

    ghost Value = { List ℕ };

    ghost view = { λ w. take w.count w.bytes };

    ghost invariant = { λ w. w.count ≤ 48 };
}

/// Writes bytes into a buffer, from an index on.
#[inline]
fn write_at(buffer: &mut [u8], index: usize, bytes: &[u8])
    requires { index + length bytes.now ≤ length buffer.old }
    ensures { take (index + length bytes.now) buffer.new ≡ take index buffer.old ++ bytes.now }
{
    let (_, free) = buffer.split_at_mut(index);
    let (front, _) = free.split_at_mut(bytes.len());
    front.copy_from_slice(bytes);
}

impl Word {
    /// The word without bytes.
    #[inline]
    pub fn empty() -> Word
        ensures { result ≡ [] }
    {
        Word {
            bytes: [0; ROOM],
            count: 0,
        }
    }

    /// Adds the bytes, for which there is room.
    #[inline]
    pub fn put(&mut self, bytes: &[u8])
        requires { length self.old + length bytes.now ≤ 48 }
        ensures { self.new ≡ self.old ++ bytes.now }
    {
        write_at(&mut self.bytes, self.count, bytes);
        self.count += bytes.len();
    }

    /// The word as a text.
    #[inline]
    pub fn text(&self, alloc: Global) -> Result<Text, NoMemory>
        ensures { IfOk result (λ text. text ≡ self.now) }
    {
        let (front, _) = self.bytes.split_at(self.count);
        let text = Text::copy(alloc, front)?;
        Ok(text)
    }
}
