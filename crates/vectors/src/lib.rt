// Sample texts, and a generator of designs of any depth (EDIF 2 0 0).
//
// The public contract in plain words: `generate` answers the generated file of a seed and a number of cells, or that memory ran out. Each cell
// but the first has two instances of the one before, in a row, or the other way round in a swapped cell; which are swapped the numbers of
// the seed say. `swapped` counts the swapped cells. `sample` answers the text of one of seven examples, by its number, and nothing for any
// other number.
#![tactic(auto)]

pub mod cells;
pub mod file;
pub mod idents;
pub mod numbers;
pub mod samples;

pub use file::generate;
pub use numbers::swapped;
pub use samples::sample;
