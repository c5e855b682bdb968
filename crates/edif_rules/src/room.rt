// How many nets a cell has, so that the set of their identifiers has its room at once: a set that grows holds up to twice what is in it,
// and for a while the old beside the new.
use edif_values::{Cell, CellItem, ContentsItem, View, ViewItem};

/// Whether the part of the contents is a net.
fn is_net(item: &ContentsItem) -> bool {
    match item {
        ContentsItem::Net(_) => true,
        _ => false,
    }
}

/// How many nets there are in some contents.
fn nets_in_contents(items: &[ContentsItem]) -> usize {
    let mut count: usize = 0;
    for item in items {
        count = count.saturating_add(is_net(item) as usize);
    }
    count
}

/// How many nets a view has.
fn nets_in_view(view: &View) -> usize {
    let mut count: usize = 0;
    for item in view.items.items() {
        if let ViewItem::Contents(items) = item {
            count = count.saturating_add(nets_in_contents(items.items()));
        }
    }
    count
}

/// How many nets a cell has.
pub(crate) fn net_count(cell: &Cell) -> usize {
    let mut count: usize = 0;
    for item in cell.items.items() {
        if let CellItem::View(view) = item {
            count = count.saturating_add(nets_in_view(view));
        }
    }
    count
}
