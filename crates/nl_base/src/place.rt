ghost use Rattle.std.specs.Prelude.{◌≡◌, ◌<◌, ◌≤◌, ◌+◌, ◌^◌, length};
ghost use Rattle.nl_base.specs.Place.{place_after, place_along, place_past, place_at_start};

/// A place in a text: the number of bytes before it, its line and its column, both from 1. A column counts bytes, and a line ends with byte 10.
#[derive(Clone, Copy, PartialEq, Eq)]
pub struct Place {
    pub offset: u64,
    pub line: u64,
    pub column: u64,
}

impl Place {
    /// The place before the first byte.
    pub fn start() -> Place
        ensures { result ≡ place_at_start }
    {
        Place {
            offset: 0,
            line: 1,
            column: 1,
        }
    }

    /// The place just past a byte that stands here.
    #[inline]
    pub fn after(&self, byte: u8) -> Place
        requires offset { self.now.offset < 2 ^ 63 }
        requires line { self.now.line < 2 ^ 63 }
        requires column { self.now.column < 2 ^ 63 }
        ensures { result ≡ place_after self.now byte }
    {
        if byte == b'\n' {
            Place {
                offset: self.offset + 1,
                line: self.line + 1,
                column: 1,
            }
        } else {
            Place {
                offset: self.offset + 1,
                line: self.line,
                column: self.column + 1,
            }
        }
    }

    /// The place after so many bytes of this line.
    #[inline]
    pub fn along(&self, count: u64) -> Place
        requires offset { self.now.offset + count ≤ 2 ^ 63 }
        requires column { self.now.column + count ≤ 2 ^ 63 }
        ensures { result ≡ place_along self.now count }
    {
        Place {
            offset: self.offset + count,
            line: self.line,
            column: self.column + count,
        }
    }

    /// The place just past some bytes that stand here.
    #[inline]
    pub fn past(&self, bytes: &[u8]) -> Place
        requires offset { self.now.offset + length bytes.now ≤ 2 ^ 63 }
        requires line { self.now.line + length bytes.now ≤ 2 ^ 63 }
        requires column { self.now.column + length bytes.now ≤ 2 ^ 63 }
        ensures { result ≡ place_past self.now bytes.now }
    {
        let mut place = *self;
        for byte in bytes {
            place = place.after(*byte);
        }
        place
    }
}
