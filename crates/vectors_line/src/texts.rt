// Texts in memory, and their lengths.
ghost use Rattle.std.specs.Prelude.{◌≡◌, ◌≤◌, length, IfOk};
ghost use Rattle.edif_values.specs.Sizes.{edif_size};
ghost use Rattle.edif_library.specs.Text.{EdifReads};
ghost use Rattle.edif_values.specs.declared.file.EdifFile.{EdifFile};
ghost use Rattle.edif_writer.specs.Forms.{edif_text};
ghost use Rattle.net_hier.specs.Valid.{count_limit};
ghost use Rattle.nl_base.specs.declared.fault.ReadError.TheVariants as errors;
ghost use Rattle.nl_bytes.specs.declared.bytes.TheConstants.{LIMIT};
ghost use Rattle.vectors_line.specs.Lines.{saturated};
ghost use Rattle.vlog_writer.specs.Forms.{vlog_text};

use crate::source::TextSource;
use edif_library::{EdifFile, read_edif};
use edif_writer::write_edif;
use nl_base::{NoMemory, ReadError};
use nl_io::{CountSink, MemSink};
use std::alloc::Global;
use vlog_values::VlogFile;
use vlog_writer::write_vlog;

/// How many bytes the text of a file has.
fn edif_length(file: &EdifFile) -> u64
    ensures { result ≡ saturated (length (edif_text file.now)) }
{
    let mut sink = CountSink::new();
    match write_edif(file, &mut sink) {
        Ok(()) => sink.total(),
        Err(_) => unreachable!(),
    }
}

/// How many bytes the text of modules has.
pub(crate) fn vlog_length(file: &VlogFile) -> u64
    ensures { result ≡ saturated (length (vlog_text file.now)) }
{
    let mut sink = CountSink::new();
    match write_vlog(file, &mut sink) {
        Ok(()) => sink.total(),
        Err(_) => unreachable!(),
    }
}

/// The text of a file that is within the limit of an input: the sink has room for all of it.
pub(crate) fn text_of(alloc: Global, file: &EdifFile) -> Result<Vec<u8>, NoMemory>
    requires { length (edif_text file.now) ≤ LIMIT }
    ensures { IfOk result (λ text. text.items ≡ edif_text file.now) }
{
    let room = vec![in alloc; 0; edif_length(file) as usize]?;
    let mut sink = MemSink::new(room, Vec::new(alloc));
    match write_edif(file, &mut sink) {
        Ok(()) => {
            let text = Vec::from_slice(alloc, sink.taken())?;
            Ok(text)
        }
        Err(_) => unreachable!(),
    }
}

/// An error that is want of memory.
fn want_of_memory(error: ReadError) -> NoMemory
    requires { error ≡ errors.NoMemory }
{
    match error {
        ReadError::NoMemory => NoMemory,
        _ => unreachable!(),
    }
}

/// The file that a text reads as, where it reads as one: no other error than want of memory comes.
#[tactic(auto, using(crate::proofs::Again::want_alone))]
pub(crate) fn file_of(alloc: Global, text: Vec<u8>) -> Result<EdifFile, NoMemory>
    requires { (file : EdifFile) × EdifReads text.items file }
    ensures reads { IfOk result (EdifReads text.items) }
    ensures small { IfOk result (λ file. edif_size file ≤ count_limit) }
{
    let mut source = TextSource::new(alloc, text)?;
    match read_edif(alloc, &mut source) {
        Ok(file) => Ok(file),
        Err(error) => Err(want_of_memory(error)),
    }
}
