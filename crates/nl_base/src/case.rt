ghost use Rattle.std.specs.Prelude.{◌≡◌, ◌==◌, zip};
ghost use Rattle.std.specs.List.{list_all};
ghost use Rattle.nl_base.specs.Case.{same_up_to_case, small};

/// Whether two texts are alike up to case: the 26 ASCII capital letters count as their small ones.
pub fn fold_eq(a: &[u8], b: &[u8]) -> bool
    ensures { result ≡ same_up_to_case a.now b.now }
{
    a.len() == b.len() && are_alike(a, b)
}

/// Whether the bytes at each place are alike up to case.
fn are_alike(a: &[u8], b: &[u8]) -> bool
    ensures { result ≡ list_all (λ pair. small pair.0 == small pair.1) (zip a.now b.now) }
{
    a.iter().zip(b).all(|(x, y)| is_alike(*x, *y))
}

/// Whether two bytes are alike up to case. Most are the same.
#[inline]
fn is_alike(x: u8, y: u8) -> bool
    ensures { result ≡ (small x == small y) }
{
    x == y || x.eq_ignore_ascii_case(&y)
}
