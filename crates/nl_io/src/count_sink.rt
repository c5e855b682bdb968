ghost use Rattle.std.specs.Prelude.{ℕ, ◌<◌, ◌≡◌, ◌+◌, ◌-◌, ◌^◌, min, Ok, length, take, IfOk, OnErr, IsOkAnd, ⊤};
ghost use Rattle.std.specs.Io.{WritesAtMost};
ghost use Rattle.nl_io.specs.Causes.{HasCause};
ghost use Rattle.nl_io.specs.Sinks.{Gains, Keeps, IsCountOf};

use crate::sink::Sink;
use crate::source::Failed;
use std::marker::Model;

/// A sink that takes all bytes, keeps their number alone and never fails.
///
/// Seen as that number.
#[derive(Drop)]
pub struct CountSink {
    total: u64,
}

impl Model for CountSink {
    ghost Value = { ℕ };

    ghost view = { λ s. s.total };
}

impl CountSink {
    /// A sink that took no byte.
    pub fn new() -> Self
        ensures { result ≡ 0 }
    {
        CountSink { total: 0 }
    }

    /// How many bytes it took, up to the end of a `u64`.
    pub fn total(&self) -> u64
        ensures { result ≡ self.now }
    {
        self.total
    }
}

impl Sink for CountSink {
    ghost receipt = { λ s. record { taken = λ bs. IsCountOf s bs; accepts = λ _. ⊤; faults = 0 } };

    fn put(&mut self, bytes: &[u8]) -> Result<usize, Failed>
        requires { 0 < length bytes.now }
        ensures some { IfOk result (λ n. 0 < n) }
        ensures bound { WritesAtMost result bytes.now }
        ensures gains { IfOk result
            (λ n. Gains (IsCountOf self.old) (IsCountOf self.new) (take n bytes.now)) }
        ensures keeps { OnErr result (Keeps (IsCountOf self.old) (IsCountOf self.new)) }
        ensures cause { HasCause 0 0 result }
        ensures accepted { (n : ℕ) → ⊤ → IsOkAnd result (λ k. ⊤) }
        ensures all { result ≡ Ok (length bytes.now) }
        ensures total { self.new ≡ min (self.old + length bytes.now) (2 ^ 64 - 1) }
    {
        self.total = self.total.saturating_add(bytes.len() as u64);
        Ok(bytes.len())
    }
}
