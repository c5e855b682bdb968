ghost use Rattle.std.specs.Prelude.{◌≡◌, ◌<◌, ◌≤◌, ◌^◌, ◌↔◌, ◌-◌, ℤ, pos, negsuc, neg_ℤ, nat_abs, length, take, drop, if◌then◌else◌, IfSome, IsNone};
ghost use Rattle.std.specs.Fmt.{signed_decimal};

use std::marker::Model;

/// A whole number of an absolute value of at most 2^63-1, which contracts see as the number.
#[derive(Clone, Copy, PartialEq, Eq)]
pub struct Int {
    value: i64,
}

impl Model for Int {
    ghost use Rattle.std.specs.Prelude.{ℤ, nat_abs, ◌<◌, ◌^◌};

    ghost Value = { ℤ };

    ghost view = { λ n. n.value };

    ghost invariant = { λ n. nat_abs n.value < 2 ^ 63 };

    ghost inverse = { λ z. record { value = z } };
}

impl Int {
    /// The number, where it is not the least `i64`.
    pub fn check(n: i64) -> Option<Int>
        ensures none { IsNone result ↔ (n ≡ negsuc (2 ^ 63 - 1)) }
        ensures number { IfSome result (λ int. int ≡ n) }
    {
        if n == i64::MIN {
            return None;
        }
        Some(Int { value: n })
    }

    /// The number of this sign and absolute value.
    pub fn signed(negative: bool, magnitude: u64) -> Int
        requires { magnitude < 2 ^ 63 }
        ensures { result ≡ (if negative then neg_ℤ (pos magnitude) else pos magnitude) }
    {
        let value = magnitude as i64;
        Int {
            value: if negative { -value } else { value },
        }
    }

    /// The number.
    pub fn value(&self) -> i64
        ensures number { result ≡ self.now }
        ensures bound { nat_abs result < 2 ^ 63 }
    {
        self.value
    }
}

/// The number `mantissa` times ten to the power `exponent`.
#[derive(Clone, Copy, PartialEq, Eq)]
pub struct Scaled {
    pub mantissa: Int,
    pub exponent: Int,
}
