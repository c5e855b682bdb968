// The size of a file.
ghost use Rattle.std.specs.Prelude.{◌≡◌, ◌-◌, ◌^◌, ℕ, min};
ghost use Rattle.edif_values.specs.Sizes.{list_size, tail_size, property_size, tree_size, note_size, written_item_size, written_size, status_item_size, status_size, port_item_size, port_size, instance_item_size, instance_size, net_item_size, net_size, interface_item_size, contents_item_size, view_item_size, view_size, cell_item_size, cell_size, library_item_size, library_size, design_item_size, design_size, file_item_size, edif_size};

use crate::cell::{Cell, CellItem};
use crate::file::{Design, DesignItem, EdifFile, FileItem};
use crate::instance::{Instance, InstanceItem};
use crate::library::{Library, LibraryItem};
use crate::net::{Net, NetItem};
use crate::note::Note;
use crate::port::{Port, PortItem};
use crate::property::{PropTail, Property};
use crate::status::{Status, StatusItem};
use crate::user::UserTree;
use crate::view::{ContentsItem, InterfaceItem, View, ViewItem};
use crate::written::{Written, WrittenItem};

/// The number of items in all lists of a file at every depth, or 2^64-1 where it is larger. The bytes of a text are no items.
pub fn edif_size(file: &EdifFile) -> u64
    ensures { result ≡ min (2 ^ 64 - 1) (edif_size file.now) }
{
    count_list(file.items.items())
}

/// A value whose lists are counted.
trait HasLists {
    /// How many items its lists have at every depth.
    ghost held: { Self → ℕ };

    /// Answers that number, or 2^64-1 where it is larger.
    fn count(&self) -> u64
        ensures { result ≡ min (2 ^ 64 - 1) (held self.now) };
}

/// Counts the items of a list, and those in the lists of its items.
fn count_list<T: HasLists>(items: &[T]) -> u64
    ensures { result ≡ min (2 ^ 64 - 1) (list_size T.held items.now) }
{
    let mut count: u64 = 0;
    for item in items {
        count = count.saturating_add(item.count());
    }
    count.saturating_add(items.len() as u64)
}

/// Counts trees of user data, and those in their lists.
#[cycle(trees)]
fn count_trees(trees: &[UserTree]) -> u64
    ensures { result ≡ min (2 ^ 64 - 1) (list_size tree_size trees.now) }
{
    let mut count: u64 = 0;
    for tree in trees {
        count = count.saturating_add(count_tree(tree));
    }
    count.saturating_add(trees.len() as u64)
}

/// Counts the trees in a tree of user data.
#[cycle(trees)]
#[tactic(auto, using(crate::proofs::Sizes::tree_sizes))]
fn count_tree(tree: &UserTree) -> u64
    ensures { result ≡ min (2 ^ 64 - 1) (tree_size tree.now) }
{
    match tree {
        UserTree::List(trees) => count_trees(trees.items()),
        UserTree::Word(_) | UserTree::Number(_) | UserTree::Str(_) => 0,
    }
}

impl HasLists for PropTail {
    ghost held = { tail_size };

    fn count(&self) -> u64 {
        match self {
            PropTail::Owner(_) => 0,
            PropTail::Comment(texts) => texts.len() as u64,
        }
    }
}

impl HasLists for Property {
    ghost held = { property_size };

    fn count(&self) -> u64 {
        count_list(self.tail.items())
    }
}

impl HasLists for Note {
    ghost held = { note_size };

    fn count(&self) -> u64 {
        match self {
            Note::Comment(texts) => texts.len() as u64,
            Note::User(data) => count_trees(data.trees.items()),
        }
    }
}

impl HasLists for WrittenItem {
    ghost held = { written_item_size };

    fn count(&self) -> u64 {
        match self {
            WrittenItem::Author(_) | WrittenItem::Program(_, _) | WrittenItem::DataOrigin(_, _) =>
                0,
            WrittenItem::Note(note) => note.count(),
        }
    }
}

impl HasLists for Written {
    ghost held = { written_size };

    fn count(&self) -> u64 {
        count_list(self.items.items())
    }
}

impl HasLists for StatusItem {
    ghost held = { status_item_size };

    fn count(&self) -> u64 {
        match self {
            StatusItem::Written(written) => written.count(),
            StatusItem::Note(note) => note.count(),
        }
    }
}

impl HasLists for Status {
    ghost held = { status_size };

    fn count(&self) -> u64 {
        count_list(self.items.items())
    }
}

impl HasLists for PortItem {
    ghost held = { port_item_size };

    fn count(&self) -> u64 {
        match self {
            PortItem::Direction(_) | PortItem::Designator(_) => 0,
            PortItem::Property(property) => property.get().count(),
            PortItem::Note(note) => note.get().count(),
        }
    }
}

impl HasLists for Port {
    ghost held = { port_size };

    fn count(&self) -> u64 {
        count_list(self.items.items())
    }
}

impl HasLists for InstanceItem {
    ghost held = { instance_item_size };

    fn count(&self) -> u64 {
        match self {
            InstanceItem::Designator(_) => 0,
            InstanceItem::Property(property) => property.count(),
            InstanceItem::Note(note) => note.count(),
        }
    }
}

impl HasLists for Instance {
    ghost held = { instance_size };

    fn count(&self) -> u64 {
        count_list(self.items.items())
    }
}

impl HasLists for NetItem {
    ghost held = { net_item_size };

    fn count(&self) -> u64 {
        match self {
            NetItem::Property(property) => property.count(),
            NetItem::Note(note) => note.count(),
        }
    }
}

impl HasLists for Net {
    ghost held = { net_size };

    fn count(&self) -> u64 {
        count_list(self.items.items()).saturating_add(self.joined.len() as u64)
    }
}

impl HasLists for InterfaceItem {
    ghost held = { interface_item_size };

    fn count(&self) -> u64 {
        match self {
            InterfaceItem::Designator(_) => 0,
            InterfaceItem::Port(port) => port.count(),
            InterfaceItem::Property(property) => property.count(),
            InterfaceItem::Note(note) => note.count(),
        }
    }
}

impl HasLists for ContentsItem {
    ghost held = { contents_item_size };

    fn count(&self) -> u64 {
        match self {
            ContentsItem::Instance(instance) => instance.count(),
            ContentsItem::Net(net) => net.count(),
            ContentsItem::Note(note) => note.count(),
        }
    }
}

impl HasLists for ViewItem {
    ghost held = { view_item_size };

    fn count(&self) -> u64 {
        match self {
            ViewItem::Contents(items) => count_list(items.items()),
            ViewItem::Property(property) => property.get().count(),
            ViewItem::Status(status) => status.count(),
            ViewItem::Note(note) => note.get().count(),
        }
    }
}

impl HasLists for View {
    ghost held = { view_size };

    fn count(&self) -> u64 {
        count_list(self.interface.items()).saturating_add(count_list(self.items.items()))
    }
}

impl HasLists for CellItem {
    ghost held = { cell_item_size };

    fn count(&self) -> u64 {
        match self {
            CellItem::View(view) => view.count(),
            CellItem::Property(property) => property.count(),
            CellItem::Status(status) => status.count(),
            CellItem::Note(note) => note.count(),
        }
    }
}

impl HasLists for Cell {
    ghost held = { cell_size };

    fn count(&self) -> u64 {
        count_list(self.items.items())
    }
}

impl HasLists for LibraryItem {
    ghost held = { library_item_size };

    fn count(&self) -> u64 {
        match self {
            LibraryItem::Cell(cell) => cell.count(),
            LibraryItem::Status(status) => status.count(),
            LibraryItem::Note(note) => note.count(),
        }
    }
}

impl HasLists for Library {
    ghost held = { library_size };

    fn count(&self) -> u64 {
        count_list(self.items.items())
            .saturating_add(count_list(self.notes.items()))
            .saturating_add(self.scales.len() as u64)
    }
}

impl HasLists for DesignItem {
    ghost held = { design_item_size };

    fn count(&self) -> u64 {
        match self {
            DesignItem::Property(property) => property.count(),
            DesignItem::Status(status) => status.count(),
            DesignItem::Note(note) => note.count(),
        }
    }
}

impl HasLists for Design {
    ghost held = { design_size };

    fn count(&self) -> u64 {
        count_list(self.items.items())
    }
}

impl HasLists for FileItem {
    ghost held = { file_item_size };

    fn count(&self) -> u64 {
        match self {
            FileItem::Library(library) => library.count(),
            FileItem::Design(design) => design.count(),
            FileItem::Status(status) => status.count(),
            FileItem::Note(note) => note.count(),
        }
    }
}
