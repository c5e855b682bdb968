// A long list in pieces, while what it is made of is left.
use nl_base::NoMemory;
use std::alloc::Global;
use std::marker::Model;
use std::mem::replace;

/// How many items a full piece has. So few take the place of what was left before, which one long list cannot: it is put together when all
/// that it was made of is left.
const FULL: usize = 16384;

/// A list that grows at its end, which contracts see as the list of its items.
#[derive(Drop)]
pub(crate) struct Pieces<T> {
    alloc: Global,
    full: Vec<Vec<T>>,
    /// The items at the end, to which others are added.
    pub last: Vec<T>,
}

impl<T> Model for Pieces<T> {
    ghost use Rattle.std.specs.Prelude.{List, flat_map, ◌++◌};
    ghost use Rattle.std.specs.Coded.{coded_list};

    ghost Value = { List T };

    ghost coded = { coded_list T.code };

    ghost view = { λ p. flat_map (λ piece. piece.items) p.full.items ++ p.last.items };
}

ghost use Rattle.std.specs.Prelude.{◌≡◌, [], flat_map, IfOk, OnOk};

/// How many items the pieces have.
fn count_of<T>(pieces: &[Vec<T>]) -> usize {
    let mut count: usize = 0;
    for piece in pieces {
        count = count.saturating_add(piece.len());
    }
    count
}

/// The items of the pieces, in a list with room for more.
fn joined<T: Drop>(alloc: Global, pieces: Vec<Vec<T>>, more: usize) -> Result<Vec<T>, NoMemory>
    ensures { IfOk result (λ all. all.items ≡ flat_map (λ piece. piece.items) pieces.items) }
{
    let room = count_of(pieces.as_slice()).saturating_add(more);
    let mut all = Vec::with_capacity(alloc, room)?;
    for mut piece in pieces {
        all.append(&mut piece)?;
    }
    Ok(all)
}

impl<T: Drop> Pieces<T> {
    /// The items of a list, which is a piece of its own where it is long.
    pub(crate) fn of(alloc: Global, items: Vec<T>) -> Result<Pieces<T>, NoMemory>
        ensures { IfOk result (λ made. made ≡ items.items) }
    {
        let mut full = Vec::new(alloc);
        if items.len() < FULL {
            return Ok(Pieces {
                alloc,
                full,
                last: items,
            });
        }
        full.push(items)?;
        Ok(Pieces {
            alloc,
            full,
            last: Vec::new(alloc),
        })
    }

    /// No items; so many are expected.
    pub(crate) fn with_room(alloc: Global, count: usize) -> Result<Pieces<T>, NoMemory>
        ensures { IfOk result (λ made. made ≡ []) }
    {
        Ok(Pieces {
            alloc,
            full: Vec::new(alloc),
            last: Vec::with_capacity(alloc, count.min(FULL))?,
        })
    }

    /// Begins a piece where the last one is full.
    pub(crate) fn turn(&mut self) -> Result<(), NoMemory>
        ensures { OnOk result (self.new ≡ self.old) }
    {
        if self.last.len() < FULL {
            return Ok(());
        }
        let next = Vec::with_capacity(self.alloc, FULL)?;
        let piece = replace(&mut self.last, next);
        self.full.push(piece)?;
        Ok(())
    }

    /// The items in one list.
    pub(crate) fn whole(self) -> Result<Vec<T>, NoMemory>
        ensures { IfOk result (λ all. all.items ≡ self) }
    {
        let Pieces {
            alloc,
            full,
            mut last,
        } = self;
        if full.is_empty() {
            last.shrink_to_fit();
            return Ok(last);
        }
        let mut all = joined(alloc, full, last.len())?;
        all.append(&mut last)?;
        Ok(all)
    }
}
