// The drivers of all groups.
ghost use Rattle.std.specs.Prelude.{◌≡◌, ◌<◌, ◌^◌, ◌++◌, [], All, IfOk, filter, length, map, slice_index_or, sum_by};
ghost use Rattle.net_lint.specs.Groups.{drivers_among};
ghost use Rattle.net_lint.specs.Roles.{is_driver};

use crate::role::{Role, is_driver};
use flat_classes::Members;
use net_bits::parts::part_of;
use nl_base::NoMemory;
use std::alloc::Global;
use std::marker::Model;

/// For each group its drivers, in order. Contracts see it as the list of these lists, which lie
/// one behind the other: a list of its own for each group would take more than the places in it.
#[derive(Drop)]
pub struct Drivers {
    starts: Vec<u32>,
    places: Vec<u32>,
}

impl Model for Drivers {
    ghost use Rattle.std.specs.Prelude.{ℕ, List, length};
    ghost use Rattle.net_bits.specs.Parts.{AreStarts, parts};

    ghost Value = { List (List ℕ) };

    ghost view = { λ d. parts d.starts.items d.places.items };

    ghost invariant = { λ d. AreStarts d.starts.items (length d.places.items) };
}

impl Drivers {
    /// The drivers of the group of this number.
    pub fn of(&self, group: usize) -> &[u32]
        requires { group < length self.now }
        ensures { result.now ≡ slice_index_or self.now group [] }
    {
        part_of(self.starts.as_slice(), self.places.as_slice(), group)
    }
}

/// How many of these are drivers.
fn driver_count(roles: &[Role]) -> usize
    ensures { result ≡ length (filter is_driver roles.now) }
{
    let mut count = 0;
    for role in roles {
        if is_driver(*role) {
            count += 1;
        }
    }
    count
}

/// Adds those of these that are drivers.
fn push_drivers(drivers: &mut Vec<u32>, roles: &[Role], places: &[u32]) -> Result<(), NoMemory>
    requires { All (λ place. place < length roles.now) places.now }
    ensures { IfOk result (λ _. drivers.new.items ≡ drivers.old.items
        ++ drivers_among roles.now places.now) }
{
    for place in places {
        if is_driver(roles[*place as usize]) {
            drivers.push(*place)?;
        }
    }
    Ok(())
}

/// For each group its drivers.
pub(crate) fn drivers_by_group(
    alloc: Global,
    roles: &[Role],
    members: &Members,
) -> Result<Drivers, NoMemory>
    requires within { All (All (λ place. place < length roles.now)) members.now }
    requires few { sum_by length members.now < 2 ^ 32 }
    ensures { IfOk result (λ drivers. drivers ≡ map (drivers_among roles.now) members.now) }
{
    let mut starts = Vec::with_capacity(alloc, members.count().saturating_add(1))?;
    let mut places = Vec::with_capacity(alloc, driver_count(roles))?;
    starts.push(0)?;
    for group in 0..members.count() {
        push_drivers(&mut places, roles, members.of(group))?;
        starts.push(places.len() as u32)?;
    }
    Ok(Drivers { starts, places })
}
