// Lists that take less place in the values that have them than a `Seq` does: most of them have no item, or one.
ghost use Rattle.std.specs.Mem.{FitsInMemory};
ghost use Rattle.std.specs.Vec.{vec_capacity, vec_len};
ghost use Rattle.nl_base.specs.Lists.{held_items};
ghost use Rattle.std.specs.Prelude.{◌≡◌, ◌==◌, ◌++◌, ◌∷◌, [], length, IfOk, OnErr, OnOk};

use crate::memory::NoMemory;
use std::alloc::Global;
use std::marker::Model;
use std::mem::replace;
use std::slice::from_ref;

/// Where the items of a list are that keeps one item in itself.
#[derive(Drop)]
enum Held<T> {
    Nothing,
    One(T),
    Many(Box<Vec<T>>),
}

/// A list that mostly has one item, which then stands in the list itself. Contracts see it as the list of its items.
#[derive(Drop)]
pub struct InlineList<T> {
    held: Held<T>,
}

impl<T> Model for InlineList<T> {
    ghost use Rattle.std.specs.Coded.{coded_list};
    ghost use Rattle.std.specs.Prelude.{List};
    ghost use Rattle.nl_base.specs.Lists.{held_items};

    ghost Value = { List T };

    ghost coded = { coded_list T.code };

    ghost view = { λ l. held_items l.held };
}

impl<T> InlineList<T> {
    /// The list of no items; it takes no memory.
    pub fn empty() -> InlineList<T>
        ensures { result ≡ [] }
    {
        InlineList {
            held: Held::Nothing,
        }
    }

    /// Its items.
    pub fn items(&self) -> &[T]
        requires { FitsInMemory T.row }
        ensures { result.now ≡ self.now }
    {
        match &self.held {
            Held::Nothing => &[],
            Held::One(one) => from_ref(one),
            Held::Many(many) => many.as_slice(),
        }
    }

    /// The number of its items.
    pub fn len(&self) -> usize
        ensures { result ≡ length self.now }
    {
        match &self.held {
            Held::Nothing => 0,
            Held::One(_) => 1,
            Held::Many(many) => many.len(),
        }
    }

    /// Whether it has no items.
    pub fn is_empty(&self) -> bool
        ensures { result ≡ (length self.now == 0) }
    {
        self.len() == 0
    }
}

impl<T: Drop> InlineList<T> {
    /// A list of one item; it takes no memory.
    pub fn one(item: T) -> InlineList<T>
        ensures { result ≡ item ∷ [] }
    {
        InlineList {
            held: Held::One(item),
        }
    }

    /// Adds the item at the end. Where memory runs out, the list is as before and the item is dropped.
    pub fn push(&mut self, alloc: Global, item: T) -> Result<(), NoMemory>
        ensures added { OnOk result (self.new ≡ self.old ++ item ∷ []) }
        ensures kept { OnErr result (self.new ≡ self.old) }
    {
        let InlineList { held } = replace(self, InlineList::empty());
        let (held, done) = match held {
            Held::Nothing => (Held::One(item), Ok(())),
            Held::One(first) => pair(alloc, first, item),
            Held::Many(mut many) => {
                let done = pushed(&mut many, item);
                (Held::Many(many), done)
            }
        };
        *self = InlineList { held };
        done
    }
}

/// Adds the item at the end of the many.
fn pushed<T: Drop>(many: &mut Vec<T>, item: T) -> Result<(), NoMemory>
    ensures added { OnOk result (many.new.items ≡ many.old.items ++ item ∷ []) }
    ensures kept { OnErr result (many.new.items ≡ many.old.items) }
{
    match many.push(item) {
        Ok(()) => Ok(()),
        Err(_) => Err(NoMemory),
    }
}

/// A list without items that has room for two.
fn room_for_two<T: Drop>(alloc: Global) -> Result<Box<Vec<T>>, NoMemory>
    ensures { IfOk result (λ made. (made.value.items ≡ []) × (vec_len made.value ≡ 0)
        × (vec_capacity made.value ≡ 2)) }
{
    let items = Vec::with_capacity(alloc, 2)?;
    Ok(Box::new(alloc, items)?)
}

/// The first item with the second behind it; by itself where memory runs out.
fn pair<T: Drop>(alloc: Global, first: T, second: T) -> (Held<T>, Result<(), NoMemory>)
    ensures added { OnOk result.1 (held_items result.0 ≡ first ∷ (second ∷ [])) }
    ensures kept { OnErr result.1 (held_items result.0 ≡ first ∷ []) }
{
    match room_for_two(alloc) {
        Ok(mut many) => {
            many.push_reserved(first);
            many.push_reserved(second);
            (Held::Many(many), Ok(()))
        }
        Err(_) => (Held::One(first), Err(NoMemory)),
    }
}

/// A list of 16 bytes, for items of values that mostly have none of them. Contracts see it as the list of its items.
#[derive(Drop)]
pub struct BoxedList<T> {
    held: Option<Box<InlineList<T>>>,
}

impl<T> Model for BoxedList<T> {
    ghost use Rattle.std.specs.Coded.{coded_list};
    ghost use Rattle.std.specs.Prelude.{List};
    ghost use Rattle.nl_base.specs.Lists.{boxed_items};

    ghost Value = { List T };

    ghost coded = { coded_list T.code };

    ghost view = { λ l. boxed_items l.held };
}

impl<T> BoxedList<T> {
    /// The list of no items; it takes no memory.
    pub fn empty() -> BoxedList<T>
        ensures { result ≡ [] }
    {
        BoxedList { held: None }
    }

    /// Its items.
    pub fn items(&self) -> &[T]
        requires { FitsInMemory T.row }
        ensures { result.now ≡ self.now }
    {
        match &self.held {
            None => &[],
            Some(held) => held.items(),
        }
    }

    /// The number of its items.
    pub fn len(&self) -> usize
        ensures { result ≡ length self.now }
    {
        match &self.held {
            None => 0,
            Some(held) => held.len(),
        }
    }

    /// Whether it has no items.
    pub fn is_empty(&self) -> bool
        ensures { result ≡ (length self.now == 0) }
    {
        self.len() == 0
    }
}

impl<T: Drop> BoxedList<T> {
    /// Adds the item at the end. Where memory runs out, the list is as before and the item is dropped.
    pub fn push(&mut self, alloc: Global, item: T) -> Result<(), NoMemory>
        ensures added { OnOk result (self.new ≡ self.old ++ item ∷ []) }
        ensures kept { OnErr result (self.new ≡ self.old) }
    {
        let BoxedList { held } = replace(self, BoxedList::empty());
        let (held, done) = match held {
            None => match Box::new(alloc, InlineList::one(item)) {
                Ok(held) => (Some(held), Ok(())),
                Err(_) => (None, Err(NoMemory)),
            },
            Some(mut held) => {
                let done = held.push(alloc, item);
                (Some(held), done)
            }
        };
        *self = BoxedList { held };
        done
    }
}
