// The numbers of a seed.
ghost use Rattle.std.specs.Prelude.{◌≡◌, ◌+◌, ◌*◌, ◌%◌, ◌-◌, ◌<◌, nat_le};
ghost use Rattle.vectors.specs.Numbers.{number_at, swapped_count};

/// The number from which on a cell is swapped.
const SWAPPED_FROM: u8 = 128;

/// The first number of a seed.
#[tactic(auto, unfolding(crate::specs::Numbers::number_at))]
pub(crate) fn first_number(seed: u64) -> u8
    ensures { result ≡ number_at seed 0 }
{
    (seed % 256) as u8
}

/// The number behind another.
pub(crate) fn next_number(number: u8) -> u8
    ensures { result ≡ (5 * number + 3) % 256 }
{
    ((5 * number as u32 + 3) % 256) as u8
}

/// Whether a cell with this number is swapped.
pub(crate) fn is_swapped(number: u8) -> bool
    ensures { result ≡ nat_le 128 number }
{
    number >= SWAPPED_FROM
}

/// How many of so many generated cells are swapped.
#[tactic(auto, using(crate::proofs::Counting::number_turn, crate::proofs::Counting::count_turn))]
pub fn swapped(seed: u64, cells: u32) -> u32
    ensures { result ≡ swapped_count seed cells }
{
    let mut number = first_number(seed);
    let mut count: u32 = 0;
    for _below in 0..cells.saturating_sub(1) {
        number = next_number(number);
        count += is_swapped(number) as u32;
    }
    count
}
