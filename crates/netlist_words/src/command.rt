ghost use Rattle.std.specs.Prelude.{◌≡◌, IfSome, IsSome, IsTrue, MatchOption, MatchResult, None, Some};
ghost use Rattle.netlist_words.specs.Commands.{IsAsked, IsCommand};
ghost use Rattle.netlist_words.specs.Lent.{lent_names, lent_wanted};
ghost use Rattle.netlist_words.specs.Parsing.{are_constants, check_of, command, constants_behind, flatten_of, generate_for, generate_of, if_none_left, lint_of, report_of, to_edif_of, to_spice_of, to_verilog_of, wanted_of};
ghost use Rattle.netlist_words.specs.declared.command.Command.{Command as CommandValue};

use crate::constants::{Names, constants_of, copied_constants};
use crate::numbers::number_of;
use crate::options::{are_options, copied, take_option, values_of};
use net_hier::Constants;
use nl_base::{NoMemory, Seq, Text};
use std::alloc::Global;

/// What the program is asked to do. Where a command may have the name of a top module, it reads a Verilog file and speaks of the design
/// under that module, and without one it reads an EDIF file.
#[derive(Drop)]
pub enum Command {
    /// Reads an EDIF file and writes it in the project's layout.
    Format,
    /// Reads a Verilog file and writes it in the project's layout.
    Vformat,
    /// Tells whether a file breaks no rule.
    Check(Option<Text>),
    /// Writes the report of a design, where these cells stand for the constants.
    Report(Option<Text>, Constants),
    /// Writes what is odd about the connections of a design, where these cells stand for the constants.
    Lint(Option<Text>, Constants),
    /// Reads an EDIF file and writes its design in Verilog, with these names of parameters.
    ToVerilog(Seq<Text>),
    /// Reads a Verilog file and writes the design under the module of this name in EDIF, where these cells stand for the constants.
    ToEdif(Text, Constants),
    /// Writes a design as one cell of leaf instances in the language that is read, where these cells stand for the constants.
    Flatten(Option<Text>, Constants),
    /// Writes a design as SPICE subcircuits.
    ToSpice(Option<Text>),
    /// Writes the line of the generated file of this seed and so many cells; it reads nothing.
    Generate(u64, u32),
}

/// A design that is asked for: the name of its top module, if any, and the names of the constants.
#[derive(Clone, Copy)]
struct Wanted<'a> {
    top: Option<&'a [u8]>,
    names: Names<'a>,
}

/// The names of the constants that words choose: `[--zero CELL.PORT] [--one CELL.PORT]`.
fn constants_behind(words: &[Text]) -> Option<Names<'_>>
    ensures names { MatchOption result (constants_behind words.now ≡ None)
        (λ names. constants_behind words.now ≡ Some (lent_names names)) }
    ensures checked { IfSome result (λ names. IsTrue (are_constants (lent_names names))) }
{
    let zero = take_option(b"--zero", words);
    let one = take_option(b"--one", zero.rest);
    if !one.rest.is_empty() {
        return None;
    }
    constants_of(zero.value, one.value)
}

/// The design that words ask for: `[--top NAME] [--zero CELL.PORT] [--one CELL.PORT]`.
fn wanted_of(words: &[Text]) -> Option<Wanted<'_>>
    ensures wanted { MatchOption result (wanted_of words.now ≡ None)
        (λ wanted. wanted_of words.now ≡ Some (lent_wanted wanted)) }
    ensures checked { IfSome result (λ wanted. IsTrue (are_constants (lent_names wanted.names))) }
{
    let top = take_option(b"--top", words);
    let names = constants_behind(top.rest)?;
    Some(Wanted {
        top: top.value,
        names,
    })
}

/// The command, where no word is left behind its options.
fn if_none_left(words: &[Text], asked: Command) -> Option<Command>
    ensures { result ≡ if_none_left words.now (Some asked) }
{
    if words.is_empty() {
        return Some(asked);
    }
    None
}

/// `check`, with these words behind it.
fn check_of(alloc: Global, words: &[Text]) -> Result<Option<Command>, NoMemory>
    ensures { MatchResult result (λ found. found ≡ check_of words.now)
        (λ _. IsSome (check_of words.now)) }
{
    let taken = take_option(b"--top", words);
    if !taken.rest.is_empty() {
        return Ok(None);
    }
    let top = copied(alloc, taken.value)?;
    Ok(Some(Command::Check(top)))
}

/// `report`, with these words behind it.
fn report_of(alloc: Global, words: &[Text]) -> Result<Option<Command>, NoMemory>
    ensures { MatchResult result (λ found. found ≡ report_of words.now)
        (λ _. IsSome (report_of words.now)) }
{
    match wanted_of(words) {
        None => Ok(None),
        Some(wanted) => {
            let top = copied(alloc, wanted.top)?;
            let constants = copied_constants(alloc, wanted.names)?;
            Ok(Some(Command::Report(top, constants)))
        }
    }
}

/// `lint`, with these words behind it.
fn lint_of(alloc: Global, words: &[Text]) -> Result<Option<Command>, NoMemory>
    ensures { MatchResult result (λ found. found ≡ lint_of words.now)
        (λ _. IsSome (lint_of words.now)) }
{
    match wanted_of(words) {
        None => Ok(None),
        Some(wanted) => {
            let top = copied(alloc, wanted.top)?;
            let constants = copied_constants(alloc, wanted.names)?;
            Ok(Some(Command::Lint(top, constants)))
        }
    }
}

/// `to-verilog`, with these words behind it.
fn to_verilog_of(alloc: Global, words: &[Text]) -> Result<Option<Command>, NoMemory>
    ensures { MatchResult result (λ found. found ≡ to_verilog_of words.now)
        (λ _. IsSome (to_verilog_of words.now)) }
{
    if !are_options(b"--parameter", words) {
        return Ok(None);
    }
    let names = values_of(alloc, words)?;
    Ok(Some(Command::ToVerilog(names)))
}

/// `to-edif`, with these words behind it.
fn to_edif_of(alloc: Global, words: &[Text]) -> Result<Option<Command>, NoMemory>
    ensures { MatchResult result (λ found. found ≡ to_edif_of words.now)
        (λ _. IsSome (to_edif_of words.now)) }
{
    match wanted_of(words) {
        None => Ok(None),
        Some(wanted) => match wanted.top {
            None => Ok(None),
            Some(top) => {
                let top = Text::copy(alloc, top)?;
                let constants = copied_constants(alloc, wanted.names)?;
                Ok(Some(Command::ToEdif(top, constants)))
            }
        },
    }
}

/// `flatten`, with these words behind it.
fn flatten_of(alloc: Global, words: &[Text]) -> Result<Option<Command>, NoMemory>
    ensures { MatchResult result (λ found. found ≡ flatten_of words.now)
        (λ _. IsSome (flatten_of words.now)) }
{
    match wanted_of(words) {
        None => Ok(None),
        Some(wanted) => {
            let top = copied(alloc, wanted.top)?;
            let constants = copied_constants(alloc, wanted.names)?;
            Ok(Some(Command::Flatten(top, constants)))
        }
    }
}

/// `to-spice`, with these words behind it.
fn to_spice_of(alloc: Global, words: &[Text]) -> Result<Option<Command>, NoMemory>
    ensures { MatchResult result (λ found. found ≡ to_spice_of words.now)
        (λ _. IsSome (to_spice_of words.now)) }
{
    let named = take_option(b"--top", words);
    if !named.rest.is_empty() {
        return Ok(None);
    }
    let top = copied(alloc, named.value)?;
    Ok(Some(Command::ToSpice(top)))
}

/// `generate` with these numbers, where so many cells can be generated.
fn generate_for(seed: u64, cells: u64) -> Option<Command>
    ensures { result ≡ generate_for seed cells }
{
    if 2 <= cells && cells <= 100_000 {
        return Some(Command::Generate(seed, cells as u32));
    }
    None
}

/// `generate`, with these words behind it.
fn generate_of(words: &[Text]) -> Option<Command>
    ensures { result ≡ generate_of words.now }
{
    let [seed, cells] = words else {
        return None;
    };
    let seed = number_of(seed.bytes())?;
    let cells = number_of(cells.bytes())?;
    generate_for(seed, cells)
}

/// The command of which this is the word and these are the words behind it.
fn parsed(alloc: Global, words: &Seq<Text>) -> Result<Option<Command>, NoMemory>
    ensures { MatchResult result (λ found. found ≡ command words.now)
        (λ _. IsSome (command words.now)) }
{
    let [word, options @ ..] = words.items() else {
        return Ok(None);
    };
    if word.bytes() == b"format".as_slice() {
        return Ok(if_none_left(options, Command::Format));
    }
    if word.bytes() == b"vformat".as_slice() {
        return Ok(if_none_left(options, Command::Vformat));
    }
    if word.bytes() == b"check".as_slice() {
        let found = check_of(alloc, options)?;
        return Ok(found);
    }
    if word.bytes() == b"report".as_slice() {
        let found = report_of(alloc, options)?;
        return Ok(found);
    }
    if word.bytes() == b"lint".as_slice() {
        let found = lint_of(alloc, options)?;
        return Ok(found);
    }
    if word.bytes() == b"to-verilog".as_slice() {
        let found = to_verilog_of(alloc, options)?;
        return Ok(found);
    }
    if word.bytes() == b"to-edif".as_slice() {
        let found = to_edif_of(alloc, options)?;
        return Ok(found);
    }
    if word.bytes() == b"flatten".as_slice() {
        let found = flatten_of(alloc, options)?;
        return Ok(found);
    }
    if word.bytes() == b"to-spice".as_slice() {
        let found = to_spice_of(alloc, options)?;
        return Ok(found);
    }
    if word.bytes() == b"generate".as_slice() {
        return Ok(generate_of(options));
    }
    Ok(None)
}

impl Command {
    /// The command for which the words ask, or none where they ask for none.
    ///
    /// # Errors
    /// Memory may run out only where the words ask for a command.
    #[tactic(auto, using(crate::proofs::OneCommand::asked_of))]
    pub fn of(alloc: Global, words: &Seq<Text>) -> Result<Option<Command>, NoMemory>
        ensures { MatchResult result (IsAsked words.now)
            (λ _. (c : CommandValue) × IsCommand words.now c) }
    {
        parsed(alloc, words)
    }
}
