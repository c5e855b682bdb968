// The bytes that a text puts, in memory.
ghost use Rattle.std.specs.Prelude.{◌≡◌, ◌<◌, [], ℕ, length, take, IfOk, OnErr, IsOkAnd};
ghost use Rattle.std.specs.Io.{WritesAtMost};
ghost use Rattle.nl_io.specs.Causes.{HasCause};
ghost use Rattle.nl_io.specs.Sinks.{Gains, Keeps};
ghost use Rattle.nl_memory.specs.Taken.{in_memory};

use nl_io::{Failed, Sink};
use std::alloc::Global;
use std::marker::Model;

/// A sink in memory that grows. A put takes all the bytes, or fails where memory runs out.
///
/// Seen as the bytes that it took, and how often it has failed, up to the end of a `u64`.
#[derive(Drop)]
pub struct MemorySink {
    bytes: Vec<u8>,
    faults: u64,
}

impl Model for MemorySink {
    ghost use Rattle.nl_memory.specs.Taken.{Taken};

    ghost Value = { Taken };

    ghost view = { λ s. record { bytes = s.bytes.items; faults = s.faults } };
}

impl MemorySink {
    /// It took nothing; it takes no memory.
    pub fn new(alloc: Global) -> MemorySink
        ensures { result ≡ record { bytes = []; faults = 0 } }
    {
        MemorySink {
            bytes: Vec::new(alloc),
            faults: 0,
        }
    }

    /// The bytes that it took.
    pub fn into_bytes(self) -> Vec<u8>
        ensures { result.items ≡ self.bytes }
    {
        let MemorySink { bytes, .. } = self;
        bytes
    }
}

impl Sink for MemorySink {
    ghost receipt = { λ s. in_memory s };

    fn put(&mut self, bytes: &[u8]) -> Result<usize, Failed>
        requires { 0 < length bytes.now }
        ensures some { IfOk result (λ n. 0 < n) }
        ensures bound { WritesAtMost result bytes.now }
        ensures gains { IfOk result
            (λ n. Gains (λ bs. bs ≡ self.old.bytes) (λ bs. bs
            ≡ self.new.bytes) (take n bytes.now)) }
        ensures keeps { OnErr result
            (Keeps (λ bs. bs ≡ self.old.bytes) (λ bs. bs ≡ self.new.bytes)) }
        ensures cause { HasCause self.old.faults self.new.faults result }
        ensures accepted { (n : ℕ) → ⊥ → IsOkAnd result (λ k. ⊥) }
    {
        let Ok(()) = self.bytes.extend_from_slice(bytes) else {
            self.faults = self.faults.saturating_add(1);
            return Err(Failed);
        };
        Ok(bytes.len())
    }
}
