// Lists and values that a reader makes: where memory runs out its cursor is spent from then on.
ghost use Rattle.std.specs.Prelude.{IsFalse};
ghost use Rattle.readers.specs.Readers.{Adds, Boxes};

use crate::cursor::VCursor;
use nl_base::{Boxed, BoxedList, InlineList, ReadError, Seq, Text};
use std::alloc::Global;

impl VCursor {
    /// Adds an item to a list. Where memory runs out the list is as before.
    #[inline(always)]
    pub fn add<T: Drop>(&mut self, list: &mut Seq<T>, item: T) -> Result<(), ReadError>
        requires { IsFalse self.old.spent }
        ensures { Adds item result self.old self.new list.old list.new }
    {
        match list.push(item) {
            Ok(()) => Ok(()),
            Err(_) => Err(self.no_memory()),
        }
    }

    /// Adds an item to a list. Where memory runs out the list is as before.
    pub fn add_boxed<T: Drop>(
        &mut self,
        alloc: Global,
        list: &mut BoxedList<T>,
        item: T,
    ) -> Result<(), ReadError>
        requires { IsFalse self.old.spent }
        ensures { Adds item result self.old self.new list.old list.new }
    {
        match list.push(alloc, item) {
            Ok(()) => Ok(()),
            Err(_) => Err(self.no_memory()),
        }
    }

    /// Adds a name to names. Where memory runs out they are as before.
    #[inline(always)]
    pub fn add_name(
        &mut self,
        alloc: Global,
        names: &mut InlineList<Text>,
        name: Text,
    ) -> Result<(), ReadError>
        requires { IsFalse self.old.spent }
        ensures { Adds name result self.old self.new names.old names.new }
    {
        match names.push(alloc, name) {
            Ok(()) => Ok(()),
            Err(_) => Err(self.no_memory()),
        }
    }

    /// Puts a value at a place of its own.
    pub(crate) fn boxed<T: Drop>(&mut self, alloc: Global, value: T) -> Result<Boxed<T>, ReadError>
        requires { IsFalse self.old.spent }
        ensures { Boxes value result self.old self.new }
    {
        match Boxed::new(alloc, value) {
            Ok(boxed) => Ok(boxed),
            Err(_) => Err(self.no_memory()),
        }
    }
}
