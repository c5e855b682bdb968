// A source that does not end.
ghost use Rattle.std.specs.Prelude.{◌≡◌, ◌<◌, None, length};
ghost use Rattle.std.specs.Io.{ReadsAtMost};
ghost use Rattle.std.specs.Io.KnownBytes.{ReadConsumes};
ghost use Rattle.nl_io.specs.Causes.{HasCause};
ghost use Rattle.nl_io.specs.Sources.{left_past, count_of};

use nl_io::{Failed, Source};

/// A source of blanks that never ends.
#[derive(Drop)]
pub struct Blanks;

impl Source for Blanks {
    ghost supply = { λ _. record { left = None; faults = 0 } };

    fn take(&mut self, buf: &mut [u8]) -> Result<usize, Failed>
        requires { 0 < length buf.old }
        ensures bound { ReadsAtMost result buf.new }
        ensures bytes { ReadConsumes None None result buf.new }
        ensures left { None ≡ left_past (count_of result) None }
        ensures cause { HasCause 0 0 result }
    {
        buf.fill(b' ');
        Ok(buf.len())
    }
}
