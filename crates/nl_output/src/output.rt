ghost use Rattle.std.specs.Prelude.{◌≡◌, ◌≤◌, ◌+◌, ◌++◌, [], false, length, take};
ghost use Rattle.std.specs.Fmt.{decimal, signed_decimal};
ghost use Rattle.nl_output.specs.Writing.{nothing, state, Drains, Finishes, Puts};

use nl_base::{Int, spell_u64};
use nl_io::{Failed, Sink, put_all};
use std::marker::Model;

const ROOM: usize = 4096;

/// A text on its way to a sink.
///
/// Seen as the bytes that it holds, and whether the sink has failed.
#[derive(Drop)]
pub struct Output {
    buffer: [u8; ROOM],
    count: usize,
    failed: bool,
}

impl Model for Output {
    ghost use Rattle.std.specs.Prelude.{◌≤◌, take};
    ghost use Rattle.nl_output.specs.Writing.{Held};

    ghost Value = { Held };

    ghost view = { λ o. record { bytes = take o.count o.buffer; failed = o.failed } };

    ghost invariant = { λ o. o.count ≤ 4096 };
}

/// Writes bytes into a buffer, from an index on.
#[inline]
fn write_at(buffer: &mut [u8], index: usize, bytes: &[u8])
    requires { index + length bytes.now ≤ length buffer.old }
    ensures { take (index + length bytes.now) buffer.new ≡ take index buffer.old ++ bytes.now }
{
    let (_, free) = buffer.split_at_mut(index);
    let (front, _) = free.split_at_mut(bytes.len());
    front.copy_from_slice(bytes);
}

/// Puts bytes to the sink, unless it has failed, and answers whether it has failed then.
fn fails_to_put<O: Sink>(failed: bool, bytes: &[u8], sink: &mut O) -> bool
    ensures { Puts (λ rest. bytes.now ++ rest)
        (state O.receipt sink.old (record { bytes = []; failed = failed }))
        (state O.receipt sink.new (record { bytes = []; failed = result })) }
{
    if failed {
        return true;
    }
    match put_all(sink, bytes) {
        Ok(()) => false,
        Err(_) => true,
    }
}

impl Output {
    /// Nothing is held, and nothing has failed.
    pub fn new() -> Output
        ensures { result ≡ record { bytes = []; failed = false } }
    {
        Output {
            buffer: [0; ROOM],
            count: 0,
            failed: false,
        }
    }

    /// How many bytes are held.
    #[inline]
    fn held(&self) -> usize
        ensures held { result ≡ length self.now.bytes }
        ensures bound { result ≤ 4096 }
    {
        self.count
    }

    /// Holds the bytes, for which there is room.
    #[inline]
    fn hold(&mut self, bytes: &[u8])
        requires { length self.old.bytes + length bytes.now ≤ 4096 }
        ensures { self.new ≡ record {
          bytes = self.old.bytes
              ++ bytes.now;
          failed = self.old.failed;
        } }
    {
        write_at(&mut self.buffer, self.count, bytes);
        self.count += bytes.len();
    }

    /// Puts bytes to the sink, where none are held, unless it has failed.
    fn pass_on<O: Sink>(&mut self, bytes: &[u8], sink: &mut O)
        requires { self.old.bytes ≡ [] }
        ensures none { self.new.bytes ≡ [] }
        ensures puts { Puts (λ rest. bytes.now ++ rest)
            (state O.receipt sink.old self.old) (state O.receipt sink.new self.new) }
    {
        self.count = 0;
        self.failed = fails_to_put(self.failed, bytes, sink);
    }

    /// Puts what is held to the sink, unless it has failed. Nothing is held then.
    fn drain<O: Sink>(&mut self, sink: &mut O)
        ensures none { self.new.bytes ≡ [] }
        ensures puts { Drains (state O.receipt sink.old self.old)
            (state O.receipt sink.new self.new) }
    {
        let (held, _) = self.buffer.split_at(self.count);
        self.failed = fails_to_put(self.failed, held, sink);
        self.count = 0;
    }

    /// Puts bytes, where none are held.
    fn put_behind<O: Sink>(&mut self, bytes: &[u8], sink: &mut O)
        requires { self.old.bytes ≡ [] }
        ensures { Puts (λ rest. bytes.now ++ rest)
            (state O.receipt sink.old self.old) (state O.receipt sink.new self.new) }
    {
        if bytes.len() <= ROOM {
            self.hold(bytes);
            return;
        }
        self.pass_on(bytes, sink);
    }

    /// Puts bytes behind what is held, which goes to the sink first.
    #[inline(never)]
    fn put_full<O: Sink>(&mut self, bytes: &[u8], sink: &mut O)
        ensures { Puts (λ rest. bytes.now ++ rest)
            (state O.receipt sink.old self.old) (state O.receipt sink.new self.new) }
    {
        self.drain(sink);
        self.put_behind(bytes, sink);
    }

    /// Puts the bytes, which come next in the text that is being written.
    #[inline(always)]
    pub fn put<O: Sink>(&mut self, bytes: &[u8], sink: &mut O)
        ensures { Puts (λ rest. bytes.now ++ rest)
            (state O.receipt sink.old self.old) (state O.receipt sink.new self.new) }
    {
        if bytes.len() <= ROOM - self.held() {
            self.hold(bytes);
            return;
        }
        self.put_full(bytes, sink);
    }

    /// Puts the decimal text of a number, with a `-` where it is negative.
    pub fn put_int<O: Sink>(&mut self, number: &Int, sink: &mut O)
        ensures { Puts (λ rest. signed_decimal number.now ++ rest)
            (state O.receipt sink.old self.old) (state O.receipt sink.new self.new) }
    {
        let mut digits = [0; 20];
        let count = number.spell(&mut digits);
        let (text, _) = digits.split_at(count);
        self.put(text, sink);
    }

    /// Puts the decimal text of a number.
    #[tactic(auto, using(crate::proofs::Digits::digit_text))]
    pub fn put_u64<O: Sink>(&mut self, number: u64, sink: &mut O)
        ensures { Puts (λ rest. decimal number ++ rest)
            (state O.receipt sink.old self.old) (state O.receipt sink.new self.new) }
    {
        if number < 10 {
            self.put(&[b'0' + number as u8], sink);
            return;
        }
        let mut digits = [0; 20];
        let count = spell_u64(number, &mut digits);
        let (text, _) = digits.split_at(count);
        self.put(text, sink);
    }

    /// Ends the text: what is held is put, and it is answered whether the sink took the whole text.
    pub fn finish<O: Sink>(mut self, sink: &mut O) -> Result<(), Failed>
        ensures { Finishes (state O.receipt sink.old self)
            (state O.receipt sink.new nothing) result }
    {
        self.drain(sink);
        if self.failed {
            return Err(Failed);
        }
        Ok(())
    }
}
