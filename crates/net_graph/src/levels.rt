// Levels of the numbers of a graph. Numbers that are reached from one another have one level, and a step down never leads to a
// greater one, so a number whose steps all lead to a lesser level does not reach itself. The levels are found by a walk that tells
// strongly connected components, of which nothing is proved but that it ends: who uses the levels tests them first.
ghost use Rattle.std.specs.Prelude.{ℕ, ◌≡◌, ◌<◌, ◌↔◌, ◌^◌, length, IsTrue, MatchOption};
ghost use Rattle.net_graph.specs.Graph.{IsInRange};
ghost use Rattle.net_graph.specs.Levels.{AreBelow, AreUpTo, FallsAt, IsFirstKept, LevelsFall, level_at};

use crate::below::numbers_below;
use crate::order::Visit;
use nl_base::{NoMemory, Seq};
use std::alloc::Global;

// Where a number of the walk's path stands among the open numbers, and the least place that is reached from it.
#[derive(Clone, Copy)]
struct Low {
    place: usize,
    least: usize,
}

// The components of the numbers that a depth-first walk has come to. An open number's component is not known yet.
#[derive(Drop)]
struct Components {
    places: Vec<usize>,
    levels: Vec<u32>,
    level: u32,
    open: Vec<u32>,
    path: Vec<Low>,
}

impl Components {
    fn new(alloc: Global, count: usize) -> Result<Components, NoMemory> {
        Ok(Components {
            places: vec![in alloc; 0; count]?,
            levels: vec![in alloc; 0; count]?,
            level: 0,
            open: Vec::new(alloc),
            path: Vec::new(alloc),
        })
    }

    // The walk comes to the number for the first time.
    fn enter(&mut self, number: u32) -> Result<(), NoMemory> {
        let place = self.open.len();
        if let Some(slot) = self.places.get_mut(number as usize) {
            *slot = place;
        }
        self.open.push(number)?;
        self.path.push(Low {
            place,
            least: place,
        })?;
        Ok(())
    }

    // A step leads from the last number of the path to one that the walk has come to before.
    fn meet(&mut self, number: u32) {
        if level_of(self.levels.as_slice(), number) > 0 {
            return;
        }
        if let (Some(place), Some(low)) = (self.places.get(number as usize), self.path.last_mut())
            && *place < low.least
        {
            low.least = *place;
        }
    }

    // The walk leaves the last number of the path. Its component is known where no lesser place is reached from it.
    fn leave(&mut self) {
        let Some(low) = self.path.pop() else {
            return;
        };
        if low.least < low.place {
            if let Some(above) = self.path.last_mut()
                && low.least < above.least
            {
                above.least = low.least;
            }
            return;
        }
        self.level = self.level.saturating_add(1);
        while self.open.len() > low.place {
            if let Some(number) = self.open.pop()
                && let Some(slot) = self.levels.get_mut(number as usize)
            {
                *slot = self.level;
            }
        }
    }
}

// The level of a number.
fn level_of(levels: &[u32], number: u32) -> u32
    ensures { result ≡ level_at levels.now number }
{
    match levels.get(number as usize) {
        Some(level) => *level,
        None => 0,
    }
}

/// Levels of the numbers that are reached from the start.
pub(crate) fn levels_from(
    alloc: Global,
    graph: &[Seq<u32>],
    start: u32,
) -> Result<Vec<u32>, NoMemory>
    requires in_range { IsInRange graph.now }
    requires within { start < length graph.now }
{
    let mut components = Components::new(alloc, graph.len())?;
    let mut seen = vec![in alloc; false; graph.len()]?;
    let mut stack = Vec::new(alloc);
    stack.push(Visit {
        number: start,
        followed: 0,
    })?;
    seen[start as usize] = true;
    components.enter(start)?;
    while let Some(visit) = stack.pop() {
        let numbers = numbers_below(graph, visit.number);
        if visit.followed < numbers.len() {
            let below = numbers[visit.followed];
            stack.push(Visit {
                number: visit.number,
                followed: visit.followed + 1,
            })?;
            if !seen[below as usize] {
                seen[below as usize] = true;
                stack.push(Visit {
                    number: below,
                    followed: 0,
                })?;
                components.enter(below)?;
            } else {
                components.meet(below);
            }
        } else {
            components.leave();
        }
    }
    let Components { levels, .. } = components;
    Ok(levels)
}

// Whether the numbers have at most this level.
fn are_up_to(levels: &[u32], level: u32, numbers: &[u32]) -> bool
    ensures { IsTrue result ↔ AreUpTo levels.now level numbers.now }
{
    for number in numbers {
        if level_of(levels, *number) > level {
            return false;
        }
    }
    true
}

// Whether the numbers have a lesser level.
fn are_below(levels: &[u32], level: u32, numbers: &[u32]) -> bool
    ensures { IsTrue result ↔ AreBelow levels.now level numbers.now }
{
    for number in numbers {
        if level_of(levels, *number) >= level {
            return false;
        }
    }
    true
}

/// Whether no step down leads to a greater level.
pub(crate) fn levels_fall(graph: &[Seq<u32>], levels: &[u32]) -> bool
    requires { length graph.now < 2 ^ 32 }
    ensures { IsTrue result ↔ LevelsFall graph.now levels.now }
{
    for number in 0..graph.len() as u32 {
        let level = level_of(levels, number);
        if !are_up_to(levels, level, graph[number as usize].items()) {
            return false;
        }
    }
    true
}

/// The first number from which some step does not lead to a lesser level; nothing exactly where there is none.
pub(crate) fn first_kept(graph: &[Seq<u32>], levels: &[u32]) -> Option<u32>
    requires { length graph.now < 2 ^ 32 }
    ensures { MatchOption result ((number : ℕ)
        → FallsAt graph.now levels.now number) (IsFirstKept graph.now levels.now) }
{
    for number in 0..graph.len() as u32 {
        let level = level_of(levels, number);
        if !are_below(levels, level, graph[number as usize].items()) {
            return Some(number);
        }
    }
    None
}
