ghost use Rattle.std.specs.Prelude.{◌≡◌, ◌≢◌, ◌<◌, ◌≤◌, [], length, take, drop, slice_index, IfOk, IfErr, OnOk, IsErrOf, ◌+◌};
ghost use Rattle.nl_io.specs.Causes.{Rose};

use crate::class::Class;
use crate::halt::Halt;
use nl_base::Place;
use nl_io::Source;
use std::alloc::{AllocError, Global};
use std::marker::Model;

/// How many bytes an input may have. The byte behind them is answered too, which tells that an input is longer.
pub const LIMIT: u64 = 268_435_456;

const ROOM: usize = 4096;

/// Reads the bytes of a source, through a buffer.
///
/// Seen as the bytes that are held, and the place of the first.
#[derive(Drop)]
pub struct Bytes {
    buffer: Vec<u8>,
    used: usize,
    // The offset of the byte ahead. It lies apart from `line`, so that both are not read as one.
    offset: u64,
    count: usize,
    line: u64,
    // The offset of the line's first byte.
    begin: u64,
}

impl Model for Bytes {
    ghost use Rattle.std.specs.Prelude.{◌≡◌, ◌≤◌, ◌+◌, ◌-◌, take, drop, vec_len};
    ghost use Rattle.nl_bytes.specs.declared.bytes.TheConstants.{LIMIT};
    ghost use Rattle.nl_bytes.specs.Bytes.{Window};

    ghost Value = { Window };

    ghost view = { λ b. record { held = drop b.used (take b.count b.buffer.items); place = record { offset = b.offset; line = b.line; column = b.offset + 1 - b.begin } } };

    ghost invariant = { λ b. (b.used ≤ b.count) × (b.count ≤ 4096) × (vec_len b.buffer ≡ 4096) × (b.offset ≤ LIMIT + 1) × (b.line ≤ b.offset + 1) × (b.begin ≤ b.offset) × (b.offset + b.count ≤ LIMIT + 4096 + b.used) };
}

impl Bytes {
    ghost use Rattle.nl_base.specs.Place.{place_at_start, place_after, place_past};
    ghost use Rattle.nl_bytes.specs.Bytes.{Uses, IsAhead, Runs, Skips, given};
    ghost use Rattle.nl_bytes.specs.Classes.{AreIn, in_class};
    ghost use Rattle.std.specs.Prelude.{false};

    /// A reader at the start of a text.
    pub fn new(alloc: Global) -> Result<Self, AllocError>
        ensures { IfOk result (λ b. b ≡ record { held = []; place = place_at_start }) }
    {
        Ok(Bytes {
            buffer: vec![in alloc; 0; ROOM]?,
            used: 0,
            offset: 0,
            count: 0,
            line: 1,
            begin: 0,
        })
    }

    /// The place of the byte ahead. No more than 4,096 bytes past the limit were ever taken from the source.
    #[inline]
    pub fn place(&self) -> Place
        ensures place { result ≡ self.now.place }
        ensures line { self.now.place.line ≤ self.now.place.offset + 1 }
        ensures column { (1 ≤ self.now.place.column)
            × (self.now.place.column ≤ self.now.place.offset + 1) }
        ensures held { length self.now.held ≤ 4096 }
        ensures limit { self.now.place.offset ≤ LIMIT + 1 }
        ensures taken { given self.now ≤ LIMIT + 4096 }
    {
        Place {
            offset: self.offset,
            line: self.line,
            column: self.offset + 1 - self.begin,
        }
    }

    /// The byte ahead, or `None` at the end. It takes from the source only where no byte is held.
    pub fn peek<S: Source>(&mut self, source: &mut S) -> Result<Option<u8>, Halt>
        ensures none_used { Uses self.old self.new
            (S.supply source.old).left (S.supply source.new).left [] }
        ensures lazy { 0 < length self.old.held → (self.new ≡ self.old)
            × (source.new ≡ source.old) }
        ensures used_up { IsErrOf result Halt.Failed → self.new.held ≡ [] }
        ensures ahead { IfOk result (IsAhead self.new (S.supply source.new).left) }
        ensures within { OnOk result (self.new.place.offset ≤ LIMIT) }
        ensures too_long { IsErrOf result Halt.TooLong → LIMIT < self.new.place.offset }
        ensures no_memory { IfErr result (λ e. e ≢ Halt.NoMemory) }
        ensures limit { self.new.place.offset ≤ LIMIT + 1 }
        ensures count { (S.supply source.old).faults ≤ (S.supply source.new).faults }
        ensures cause { IsErrOf result Halt.Failed
            → Rose (S.supply source.old).faults (S.supply source.new).faults }
    {
        if self.offset > LIMIT {
            return Err(Halt::TooLong);
        }
        if self.used < self.count {
            return Ok(Some(self.buffer[self.used]));
        }
        match source.take(self.buffer.as_mut_slice()) {
            Ok(count) => {
                self.used = 0;
                self.count = count;
                if count == 0 {
                    return Ok(None);
                }
                Ok(Some(self.buffer[0]))
            }
            Err(_) => Err(Halt::Failed),
        }
    }

    /// Uses the byte ahead.
    #[inline]
    pub fn advance(&mut self)
        requires held { 0 < length self.old.held }
        requires within { self.old.place.offset ≤ LIMIT }
        ensures held { self.new.held ≡ drop 1 self.old.held }
        ensures place { self.new.place ≡ place_after self.old.place (slice_index self.old.held 0) }
    {
        let byte = self.buffer[self.used];
        self.used += 1;
        self.offset += 1;
        if byte == b'\n' {
            self.line += 1;
            self.begin = self.offset;
        }
    }

    /// The bytes that were taken and not used yet.
    #[inline]
    pub fn held(&self) -> &[u8]
        ensures { result.now ≡ self.now.held }
    {
        let (front, _) = self.buffer.as_slice().split_at(self.count);
        let (_, held) = front.split_at(self.used);
        held
    }

    /// How many held bytes ahead are in a class, at most so many, and at most to the limit.
    #[inline]
    fn ahead_in(&self, class: Class, most: usize) -> usize
        requires held { 0 < length self.now.held }
        requires within { self.now.place.offset ≤ LIMIT }
        ensures held { result ≤ length self.now.held }
        ensures most { result ≤ most }
        ensures within { self.now.place.offset + result ≤ LIMIT + 1 }
        ensures each { AreIn class (take result self.now.held) }
        ensures stops { result ≡ 0 → 0 < most
            → in_class class (slice_index self.now.held 0) ≡ false }
    {
        let held = self.held();
        let room = (LIMIT + 1 - self.place().offset) as usize;
        let (front, _) = held.split_at(most.min(room).min(held.len()));
        class.front(front)
    }

    /// Uses so many held bytes of a class without line feeds.
    #[inline]
    fn pass_along(&mut self, class: Class, count: usize)
        requires held { count ≤ length self.old.held }
        requires within { self.old.place.offset + count ≤ LIMIT + 1 }
        requires each { AreIn class (take count self.old.held) }
        requires along { in_class class 10 ≡ false }
        ensures held { self.new.held ≡ drop count self.old.held }
        ensures place { self.new.place ≡ place_past self.old.place (take count self.old.held) }
    {
        self.used += count;
        self.offset += count as u64;
    }

    /// The place past so many held bytes.
    #[inline]
    fn passed(&self, count: usize) -> Place
        requires held { count ≤ length self.now.held }
        requires within { self.now.place.offset + count ≤ LIMIT + 1 }
        ensures place { result ≡ place_past self.now.place (take count self.now.held) }
        ensures offset { result.offset ≡ self.now.place.offset + count }
        ensures line { result.line ≤ result.offset + 1 }
        ensures column { result.column ≤ result.offset + 1 }
        ensures some { 1 ≤ result.column }
    {
        let (front, _) = self.held().split_at(count);
        self.place().past(front)
    }

    /// Uses so many held bytes.
    fn pass_lines(&mut self, count: usize)
        requires held { count ≤ length self.old.held }
        requires within { self.old.place.offset + count ≤ LIMIT + 1 }
        ensures held { self.new.held ≡ drop count self.old.held }
        ensures place { self.new.place ≡ place_past self.old.place (take count self.old.held) }
    {
        let place = self.passed(count);
        self.used += count;
        self.offset = place.offset;
        self.line = place.line;
        self.begin = place.offset + 1 - place.column;
    }

    /// Uses so many held bytes, which are in a class.
    #[inline]
    pub fn pass(&mut self, class: Class, count: usize)
        requires held { count ≤ length self.old.held }
        requires within { self.old.place.offset + count ≤ LIMIT + 1 }
        requires each { AreIn class (take count self.old.held) }
        ensures held { self.new.held ≡ drop count self.old.held }
        ensures place { self.new.place ≡ place_past self.old.place (take count self.old.held) }
    {
        if class.contains(b'\n') {
            self.pass_lines(count)
        } else {
            self.pass_along(class, count)
        }
    }

    /// Uses the bytes of a class ahead, at most so many, and adds them to `out`. It answers the byte ahead then.
    #[inline]
    pub fn run<S: Source>(
        &mut self,
        class: Class,
        most: usize,
        out: &mut Vec<u8>,
        source: &mut S,
    ) -> Result<Option<u8>, Halt>
        ensures runs { Runs class most self.old self.new
            (S.supply source.old).left
            (S.supply source.new).left out.old.items out.new.items result }
        ensures limit { self.new.place.offset ≤ LIMIT + 1 }
        ensures count { (S.supply source.old).faults ≤ (S.supply source.new).faults }
        ensures cause { IsErrOf result Halt.Failed
            → Rose (S.supply source.old).faults (S.supply source.new).faults }
    {
        let mut n = 0;
        loop {
            let next = self.peek(source)?;
            let Some(byte) = next else {
                return Ok(None);
            };
            let count = self.ahead_in(class, most - n);
            if count == 0 {
                return Ok(Some(byte));
            }
            let (front, _) = self.held().split_at(count);
            out.extend_from_slice(front)?;
            self.pass(class, count);
            n += count;
        }
    }

    /// Uses the bytes of a class ahead. It answers the byte ahead then.
    #[inline(always)]
    pub fn skip<S: Source>(&mut self, class: Class, source: &mut S) -> Result<Option<u8>, Halt>
        ensures skips { Skips class self.old self.new
            (S.supply source.old).left (S.supply source.new).left result }
        ensures no_memory { IfErr result (λ e. e ≢ Halt.NoMemory) }
        ensures limit { self.new.place.offset ≤ LIMIT + 1 }
        ensures count { (S.supply source.old).faults ≤ (S.supply source.new).faults }
        ensures cause { IsErrOf result Halt.Failed
            → Rose (S.supply source.old).faults (S.supply source.new).faults }
    {
        loop {
            let next = self.peek(source)?;
            let Some(byte) = next else {
                return Ok(None);
            };
            if !class.contains(byte) {
                return Ok(Some(byte));
            }
            self.advance();
        }
    }
}
