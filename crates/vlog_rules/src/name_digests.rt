// The digest of a name: equal names have equal ones.
ghost use Rattle.std.specs.Prelude.{◌≡◌};
ghost use Rattle.vlog_rules.specs.NameDigests.{digest_of};

use std::hash::{FoldHasher, Hasher};

/// The digest of a name, by the hash of the library's tables.
pub(crate) fn digest_of(name: &[u8]) -> u64
    ensures { result ≡ digest_of name.now }
{
    let mut state = FoldHasher::default();
    state.write(name);
    state.finish()
}
