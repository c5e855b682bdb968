ghost use Rattle.std.specs.Prelude.{◌≡◌, ◌<◌, ◌≤◌, ◌^◌};
ghost use Rattle.nl_base.specs.Ranges.{range_bits, index_at};

use std::marker::Model;

/// The indexes of the bits of a port or a net, from the leftmost to the rightmost. Neither is the least `i32`.
#[derive(Clone, Copy, PartialEq, Eq)]
pub struct Range {
    pub left: i32,
    pub right: i32,
}

impl Model for Range {
    ghost use Rattle.std.specs.Prelude.{nat_abs, ◌<◌, ◌^◌};
    ghost use Rattle.nl_base.specs.Ranges.{Bounds};

    ghost Value = { Bounds };

    ghost view = { λ r. record { left = r.left; right = r.right } };

    ghost invariant = { λ r. (nat_abs r.left < 2 ^ 31) × (nat_abs r.right < 2 ^ 31) };

    ghost inverse = { λ b. record { left = b.left; right = b.right } };
}

impl Range {
    /// How many bits there are: `|left - right| + 1`.
    pub fn bits(&self) -> u64
        ensures bits { result ≡ range_bits self.now }
        ensures bound { result < 2 ^ 32 }
    {
        let left = self.left as i64;
        let right = self.right as i64;
        if left < right {
            (right - left) as u64 + 1
        } else {
            (left - right) as u64 + 1
        }
    }

    /// The index at this position from the left, where the leftmost has position 0.
    pub fn index(&self, position: u32) -> i32
        requires { position < range_bits self.now }
        ensures { result ≡ index_at self.now position }
    {
        let left = self.left as i64;
        if left < self.right as i64 {
            (left + position as i64) as i32
        } else {
            (left - position as i64) as i32
        }
    }
}
