// The places of numbers in a list.
ghost use Rattle.std.specs.Prelude.{◌≡◌, ◌<◌, ◌^◌, All, length, IfOk};
ghost use Rattle.net_flatten_rules.specs.FlatDesign.{place_in};
ghost use Rattle.net_flatten_cells.specs.Places.{ArePlaces};

use nl_base::NoMemory;
use std::alloc::Global;
use std::marker::Model;

/// Numbers below a count, and the place of each such number among them.
#[derive(Drop)]
pub struct Places {
    numbers: Vec<u32>,
    places: Vec<u32>,
}

impl Model for Places {
    ghost use Rattle.std.specs.Prelude.{length};
    ghost use Rattle.net_flatten_cells.specs.Places.{ArePlaces, Numbers};

    ghost Value = { Numbers };

    ghost view = { λ p. record { numbers = p.numbers.items; count = length p.places.items } };

    ghost invariant = { λ p. ArePlaces p.numbers.items (length p.places.items) p.places.items };
}

/// For each number below the count its place in the list, or the length of the list where it is not there.
fn places_of(alloc: Global, count: usize, numbers: &[u32]) -> Result<Vec<u32>, NoMemory>
    requires few { length numbers.now < 2 ^ 32 }
    requires below { All (λ number. number < count) numbers.now }
    ensures { IfOk result (λ places. ArePlaces numbers.now count places.items) }
{
    let mut places = vec![in alloc; numbers.len() as u32; count]?;
    let mut place = numbers.len();
    while place > 0 {
        place -= 1;
        places[numbers[place] as usize] = place as u32;
    }
    Ok(places)
}

impl Places {
    /// These numbers, which are below the count.
    pub fn of(alloc: Global, count: usize, numbers: Vec<u32>) -> Result<Places, NoMemory>
        requires few { length numbers.items < 2 ^ 32 }
        requires below { All (λ number. number < count) numbers.items }
        ensures { IfOk result (λ places. places
            ≡ record { numbers = numbers.items; count = count }) }
    {
        let places = places_of(alloc, count, numbers.as_slice())?;
        Ok(Places { numbers, places })
    }

    /// The numbers.
    pub fn numbers(&self) -> &[u32]
        ensures { result.now ≡ self.now.numbers }
    {
        self.numbers.as_slice()
    }

    /// The place of a number.
    pub fn place(&self, number: u32) -> u32
        requires { number < self.now.count }
        ensures { result ≡ place_in self.now.numbers number }
    {
        self.places[number as usize]
    }
}
