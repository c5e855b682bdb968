// Names as keys of tables.
//
// A table hashes with the kit's FoldHasher, whose seed is fixed: names that are made to collide are found one after the other.
ghost use Rattle.std.specs.Prelude.{◌≡◌, ◌∷◌, [], map};
ghost use Rattle.std.proofs.Common.{ap};
ghost use Rattle.std.specs.Hash as fed;
ghost use Rattle.std.specs.Cmp.{on_equiv, on_per, partial_equiv_from_equiv};
ghost use Rattle.std.specs.Cmp.Lexicographic.{bytes_decides, nat_list_eq_equiv};
ghost use Rattle.nl_base.specs.Case.{same_bytes, same_up_to_case, small};
ghost use Rattle.edif_lookup.specs.Keys.{digest, one_byte_more};

use nl_base::fold_eq;
use std::hash::{Hash, Hasher};

/// A name as it is spelled, hashed in one piece.
#[derive(Clone, Copy)]
pub struct Name<'a> {
    pub bytes: &'a [u8],
}

impl<'a> PartialEq for Name<'a> {
    ghost eq = { λ x y. same_bytes x.bytes.now y.bytes.now };

    ghost laws = { on_per (λ n. n.bytes.now) (partial_equiv_from_equiv nat_list_eq_equiv) };

    fn eq(&self, other: &Self) -> bool {
        self.bytes == other.bytes
    }
}

impl<'a> Eq for Name<'a> {
    ghost laws = { on_equiv (λ n. n.bytes.now) nat_list_eq_equiv };
}

impl<'a> Hash for Name<'a> {
    ghost hash_input = { λ n. n.bytes.now ∷ [] };

    ghost respects_eq = { λ x y e. ap (λ t. t ∷ []) ((bytes_decides x.bytes.now y.bytes.now).0 e) };

    fn hash<H: Hasher>(&self, state: &mut H) {
        state.write(self.bytes);
    }
}

/// A name up to case.
#[derive(Clone, Copy)]
pub struct Folded<'a> {
    pub bytes: &'a [u8],
}

impl<'a> PartialEq for Folded<'a> {
    ghost eq = { λ x y. same_up_to_case x.bytes.now y.bytes.now };

    ghost laws = { on_per (λ n. map small n.bytes.now) (partial_equiv_from_equiv nat_list_eq_equiv) };

    fn eq(&self, other: &Self) -> bool {
        are_alike(self.bytes, other.bytes)
    }
}

impl<'a> Eq for Folded<'a> {
    ghost laws = { on_equiv (λ n. map small n.bytes.now) nat_list_eq_equiv };
}

impl<'a> Hash for Folded<'a> {
    ghost hash_input = { λ n. fed.u64 (digest (map small n.bytes.now)) };

    ghost respects_eq = { λ x y e. ap (λ t. fed.u64 (digest t)) ((bytes_decides (map small x.bytes.now) (map small y.bytes.now)).0 e) };

    fn hash<H: Hasher>(&self, state: &mut H) {
        state.write_u64(digest(self.bytes));
    }
}

/// Whether two names are alike up to case. Most that are compared are the same.
pub(crate) fn are_alike(a: &[u8], b: &[u8]) -> bool
    ensures { result ≡ same_up_to_case a.now b.now }
{
    if a == b {
        return true;
    }
    fold_eq(a, b)
}

/// The number of a name with its ASCII capital letters made small.
fn digest(bytes: &[u8]) -> u64
    ensures { result ≡ digest (map small bytes.now) }
{
    let mut digest = 0;
    for byte in bytes {
        digest = one_byte_more(digest, byte.to_ascii_lowercase());
    }
    digest
}

/// The number of the bytes so far, and one more byte.
#[inline]
#[tactic(auto, unfolding(crate::specs::Keys::one_byte_more))]
fn one_byte_more(digest: u64, byte: u8) -> u64
    ensures { result ≡ one_byte_more digest byte }
{
    digest.wrapping_mul(1099511628211).wrapping_add(byte as u64)
}
