// Lists that are made with room for their first items, and lists without room for more.
ghost use Rattle.std.specs.Prelude.{◌≡◌, []};

use nl_base::Seq;
use std::alloc::Global;

/// A list of no items, with room for so many where there is memory for them.
#[inline]
pub fn seq_with_room<T>(alloc: Global, count: usize) -> Seq<T>
    ensures { result ≡ [] }
{
    match Vec::with_capacity(alloc, count) {
        Ok(items) => Seq::of(items),
        Err(_) => Seq::empty(alloc),
    }
}

/// The list, without room for further items, where the allocator can give it back: one that grew by doubling can be half empty.
pub fn fitted<T>(list: Seq<T>) -> Seq<T>
    ensures { result ≡ list }
{
    let mut items = list.into_vec();
    items.shrink_to_fit();
    Seq::of(items)
}
