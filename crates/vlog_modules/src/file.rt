// Files, and the directives and modules that are their pieces.
ghost use Rattle.std.specs.Prelude.{◌≡◌, ◌+◌, ◌-◌, ◌<◌, ◌≤◌, IfOk, IsFalse};
ghost use Rattle.readers.specs.Readers.{same, room, Reads, ReadsMaybe, ReadsWhole, LooksFor, TakesNext};
ghost use Rattle.readers.specs.Texts.{ReadsText};
ghost use Rattle.nl_bytes.specs.declared.bytes.TheConstants.{LIMIT};
ghost use Rattle.vlog_values.specs.Values.{IsModule, IsVlogValue};
ghost use Rattle.vlog_values.specs.Sizes.{module_size, vlog_size};
ghost use Rattle.vlog_tokens.specs.Language.{vlog};
ghost use Rattle.vlog_exprs.specs.Calls.{kept};
ghost use Rattle.vlog_exprs.specs.Reasons.{trailing};
ghost use Rattle.vlog_modules.specs.States.{IsPiece, piece_size, AddsPiece};
ghost use Rattle.vlog_modules.specs.Starts.{begins_piece, said_by, piece};
ghost use Rattle.vlog_modules.specs.Beginnings.{beginning, one_heading};
ghost use Rattle.vlog_modules.specs.Grammar.{net_type, net_type_of, directive_of, at_directive, file};

use crate::module::{read_heading, read_items, with_items};
use nl_base::{ReadError, Reason, Seq};
use nl_io::Source;
use std::alloc::Global;
use vlog_exprs::reasons::{Said, misplaced};
use vlog_exprs::{Glance, VCursor, read_attrs};
use vlog_tokens::{VFound, VToken, VTokens};
use vlog_values::{Module, VlogFile};

/// A directive that stands between modules.
#[derive(Clone, Copy)]
pub(crate) enum Directive {
    Nettype,
    Reset,
}

/// A piece of a file: what a directive says, or a module.
#[derive(Drop)]
pub enum Piece {
    /// From here on names that are used without a declaration are nets, or not.
    Implicit(bool),
    /// A module with its attributes.
    Module(Module),
}

/// The modules so far, and whether names are nets without a declaration from here on.
#[derive(Drop)]
pub struct SoFar {
    pub(crate) modules: Seq<Module>,
    pub(crate) implicit: bool,
}

/// Reads a text to its end as a Verilog file. The text has at most 268,435,456 bytes. Whatever it answers, at
/// most 4,096 bytes more than these are taken from the source. Whether or not the source tells its bytes, the
/// file is one that can be written, and it has at most 268,435,456 items in all its lists.
///
/// # Errors
/// `Text`: the first fault, with its place, where its stop lies within so many bytes. `TooLong`: the text is longer, and it has no such
/// fault. `ReadFault`: the source failed. `NoMemory`: memory ran out. It never answers `Spent`.
pub fn read_vlog<S: Source>(alloc: Global, source: &mut S) -> Result<VlogFile, ReadError>
    ensures reads { ReadsText vlog trailing tt same file result
        (S.supply source.old) (S.supply source.new) }
    ensures value { IfOk result IsVlogValue }
    ensures size { IfOk result (λ file. vlog_size file ≤ LIMIT) }
{
    let Ok(tokens) = VTokens::new(alloc) else {
        return Err(ReadError::NoMemory);
    };
    let mut cursor = VCursor::new(alloc, tokens);
    let file = read_file(alloc, &mut cursor, source)?;
    cursor.end_of_input(alloc, source)?;
    Ok(file)
}

/// Reads directives and modules, as long as one is next.
#[tactic(auto, using(crate::proofs::Pieces::piece_loops), unfolding(crate::specs::Grammar::file))]
fn read_file<S: Source>(
    alloc: Global,
    cursor: &mut VCursor,
    source: &mut S,
) -> Result<VlogFile, ReadError>
    ensures reads { ReadsWhole vlog same file result cursor.old cursor.new
        (S.supply source.old) (S.supply source.new) }
    ensures value { IfOk result IsVlogValue }
    ensures size { IfOk result (λ file. vlog_size file ≤ room cursor.old - 1) }
{
    let mut so_far = SoFar {
        modules: Seq::empty(alloc),
        implicit: true,
    };
    while at_piece(alloc, cursor, source)? {
        let piece = read_piece(alloc, cursor, so_far.implicit, source)?;
        so_far = with_piece(cursor, so_far, piece)?;
    }
    Ok(VlogFile {
        modules: so_far.modules,
    })
}

/// Adds a piece to the modules so far. Where memory runs out the cursor is spent from then on.
#[tactic(auto, unfolding(crate::specs::Starts::with_piece))]
fn with_piece(cursor: &mut VCursor, so_far: SoFar, piece: Piece) -> Result<SoFar, ReadError>
    requires { IsFalse cursor.old.spent }
    ensures { AddsPiece so_far piece result cursor.old cursor.new }
{
    let SoFar {
        mut modules,
        implicit,
    } = so_far;
    match piece {
        Piece::Implicit(implicit) => Ok(SoFar { modules, implicit }),
        Piece::Module(module) => {
            cursor.add(&mut modules, module)?;
            Ok(SoFar { modules, implicit })
        }
    }
}

/// Looks whether a directive or a module is next. It takes nothing.
///
/// # Errors
/// As `read_piece`, where the next token is no token of Verilog or is not to be had.
#[tactic(auto, using(readers::proofs::Looking::looks_for))]
pub fn at_piece<S: Source>(
    alloc: Global,
    cursor: &mut VCursor,
    source: &mut S,
) -> Result<bool, ReadError>
    ensures { LooksFor vlog begins_piece result cursor.old cursor.new
        (S.supply source.old) (S.supply source.new) }
{
    cursor.look(alloc, source)?;
    if let Some(found) = cursor.ahead() {
        return Ok(begins_piece(found));
    }
    Ok(false)
}

/// Whether a directive or a module begins with a token.
#[tactic(auto, unfolding(crate::specs::Starts::begins_piece))]
fn begins_piece(found: &VFound) -> bool
    ensures { result ≡ begins_piece found.now }
{
    match &found.token {
        VToken::AttrStart => true,
        VToken::Keyword(word) => word.bytes() == b"module".as_slice(),
        VToken::Directive(word) => directive_of(word.bytes()).is_some(),
        _ => false,
    }
}

/// The directive of this word, where it may stand between modules.
fn directive_of(word: &[u8]) -> Option<Directive>
    ensures { result ≡ directive_of word.now }
{
    if word == b"`default_nettype".as_slice() {
        return Some(Directive::Nettype);
    }
    if word == b"`resetall".as_slice() {
        return Some(Directive::Reset);
    }
    None
}

/// Reads a directive or a module, where one is next. `implicit` says whether names are nets without a declaration in the module.
/// Whether or not the source tells its bytes, a module is one that can be written.
///
/// # Errors
/// `Text`: the first fault, with its place. `TooLong`: more bytes are needed than are looked at. `ReadFault`: the source failed.
/// `NoMemory`: memory ran out. `Spent`: an earlier call with this cursor has failed.
fn read_piece<S: Source>(
    alloc: Global,
    cursor: &mut VCursor,
    implicit: bool,
    source: &mut S,
) -> Result<Piece, ReadError>
    ensures reads { Reads vlog same (piece implicit) result cursor.old cursor.new
        (S.supply source.old) (S.supply source.new) }
    ensures value { IfOk result IsPiece }
    ensures size { IfOk result (λ p. piece_size p + room cursor.new < room cursor.old) }
{
    match read_beginning(alloc, cursor, implicit, source)? {
        Piece::Implicit(implicit) => Ok(Piece::Implicit(implicit)),
        Piece::Module(heading) => {
            let items = read_items(alloc, cursor, source)?;
            Ok(Piece::Module(with_items(heading, items)))
        }
    }
}

/// Reads a directive, or a module up to its items, where one is next: the module that is answered has none. `implicit` says whether names are
/// nets without a declaration in the module. The items stand behind it, each where `at_item` sees one, and then `endmodule`.
///
/// # Errors
/// As `read_piece`.
#[tactic(auto, using(readers::proofs::Choices::choices), unfolding(crate::specs::Beginnings::beginning))]
pub fn read_beginning<S: Source>(
    alloc: Global,
    cursor: &mut VCursor,
    implicit: bool,
    source: &mut S,
) -> Result<Piece, ReadError>
    ensures reads { Reads vlog same (beginning implicit) result cursor.old cursor.new
        (S.supply source.old) (S.supply source.new) }
    ensures value { IfOk result IsPiece }
    ensures size { IfOk result (λ p. piece_size p + room cursor.new < room cursor.old) }
{
    match takes_directive(alloc, cursor, source)? {
        Some(word) => {
            let implicit = read_directive(alloc, cursor, word, source)?;
            Ok(Piece::Implicit(implicit))
        }
        None => {
            let heading = read_one_heading(alloc, cursor, implicit, source)?;
            Ok(Piece::Module(heading))
        }
    }
}

/// Takes a directive, where one is next that may stand between modules.
fn takes_directive<S: Source>(
    alloc: Global,
    cursor: &mut VCursor,
    source: &mut S,
) -> Result<Option<Directive>, ReadError>
    ensures { TakesNext vlog same (λ _ x. at_directive x.token) result cursor.old cursor.new
        (S.supply source.old) (S.supply source.new) }
{
    let next = cursor.next_out(alloc, source)?;
    let Some(VFound { place, stop, token }) = next else {
        return Ok(None);
    };
    cursor.settled(place, stop, at_directive(token))
}

/// A directive that may stand between modules, which need not stand.
fn at_directive(token: VToken) -> Glance<Directive>
    ensures { result ≡ kept token (at_directive token) }
{
    match token {
        VToken::Directive(word) => match directive_of(word.bytes()) {
            Some(directive) => Glance::Takes(directive),
            None => Glance::Leaves(VToken::Directive(word)),
        },
        other => Glance::Leaves(other),
    }
}

/// Reads on behind a directive, and answers whether names are nets without a declaration from here on.
#[tactic(auto, using(readers::proofs::Reading::sequences), unfolding(crate::specs::Starts::said_by))]
fn read_directive<S: Source>(
    alloc: Global,
    cursor: &mut VCursor,
    word: Directive,
    source: &mut S,
) -> Result<bool, ReadError>
    requires { IsFalse cursor.old.spent }
    ensures { ReadsMaybe vlog same (said_by word) result cursor.old cursor.new
        (S.supply source.old) (S.supply source.new) }
{
    match word {
        Directive::Nettype => {
            let implicit = read_net_type(alloc, cursor, source)?;
            Ok(implicit)
        }
        Directive::Reset => Ok(true),
    }
}

/// Reads the net kind of names that are used without a declaration, and answers whether there is one.
fn read_net_type<S: Source>(
    alloc: Global,
    cursor: &mut VCursor,
    source: &mut S,
) -> Result<bool, ReadError>
    ensures { Reads vlog same net_type result cursor.old cursor.new
        (S.supply source.old) (S.supply source.new) }
{
    let VFound { place, stop, token } = cursor.take(alloc, source)?;
    let said = net_type_of(alloc, token);
    cursor.judged(place, stop, said)
}

/// What a token says of the net kind of names that are used without a declaration.
fn net_type_of(alloc: Global, token: VToken) -> Said<bool>
    ensures { IfOk result (λ said. said ≡ net_type_of token) }
{
    match token {
        VToken::Keyword(word) => {
            if word.bytes() == b"wire".as_slice() {
                return Ok(Ok(true));
            }
            Ok(Err(Reason::NotInProfile(word)))
        }
        VToken::Name(name) => {
            if name.bytes() == b"none".as_slice() {
                return Ok(Ok(false));
            }
            Ok(Err(Reason::Unexpected))
        }
        other => {
            let reason = misplaced(alloc, other)?;
            Ok(Err(reason))
        }
    }
}

/// Reads a module up to its items, from its attributes on.
#[tactic(auto, using(readers::proofs::Reading::sequences), unfolding(crate::specs::Beginnings::one_heading))]
fn read_one_heading<S: Source>(
    alloc: Global,
    cursor: &mut VCursor,
    implicit: bool,
    source: &mut S,
) -> Result<Module, ReadError>
    ensures reads { Reads vlog same (one_heading implicit) result cursor.old cursor.new
        (S.supply source.old) (S.supply source.new) }
    ensures value { IfOk result IsModule }
    ensures size { IfOk result (λ m. module_size m + 1 + room cursor.new < room cursor.old) }
{
    let attrs = read_attrs(alloc, cursor, source)?;
    let heading = read_heading(alloc, cursor, implicit, attrs, source)?;
    Ok(heading)
}
