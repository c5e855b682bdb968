// Room that a list gives back while it is taken apart from its end.
ghost use Rattle.std.specs.Prelude.{◌≡◌};

/// Room for so many items is not given back.
const FEW: usize = 4096;

/// Gives room for many items back where at least a quarter of it is spare.
pub(crate) fn give_back<T>(list: &mut Vec<T>)
    ensures { list.new.items ≡ list.old.items }
{
    if list.capacity() > FEW && list.len() <= list.capacity() / 4 * 3 {
        list.shrink_to_fit();
    }
}
