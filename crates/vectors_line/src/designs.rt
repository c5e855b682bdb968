// The design of a generated file.
ghost use Rattle.std.specs.Prelude.{◌≡◌, ◌<◌, ◌≤◌, ◌^◌, None, IfOk};
ghost use Rattle.edif_design.specs.Design.{edif_design};
ghost use Rattle.edif_design.specs.FileRules.{first_E};
ghost use Rattle.edif_values.specs.Sizes.{edif_size};
ghost use Rattle.edif_library.specs.Text.{EdifReads};
ghost use Rattle.edif_resolve.specs.Answers.{IsDesignOf};
ghost use Rattle.edif_writer.specs.Forms.{edif_text};
ghost use Rattle.net_hier.specs.Units.{units};
ghost use Rattle.net_hier.specs.Valid.{count_limit, unit_limit};
ghost use Rattle.vectors.specs.Files.{generated};

use crate::texts::{file_of, text_of};
use edif_library::EdifFile;
use edif_resolve::{ResolveError, resolve};
use net_hier::Hier;
use nl_base::NoMemory;
use std::alloc::Global;
use vectors::generate;

/// The file that the text of a file reads as, which is the file itself.
#[tactic(auto, using(crate::proofs::Again::same_file, crate::proofs::Again::text_short, crate::proofs::Again::text_is_one))]
fn read_again(alloc: Global, file: &EdifFile) -> Result<EdifFile, NoMemory>
    requires { EdifReads (edif_text file.now) file.now }
    ensures same { IfOk result (λ read. read ≡ file.now) }
    ensures small { IfOk result (λ read. edif_size read ≤ count_limit) }
{
    let text = text_of(alloc, file)?;
    let read = file_of(alloc, text)?;
    Ok(read)
}

/// The design of a file that breaks no rule and whose design is within the limit of a design.
fn design_of(alloc: Global, file: &EdifFile) -> Result<Hier, NoMemory>
    requires small { edif_size file.now ≤ count_limit }
    requires no_refusal { first_E file.now ≡ None }
    requires fits { units (edif_design file.now).cells ≤ unit_limit }
    ensures { IfOk result (IsDesignOf file.now) }
{
    match resolve(alloc, file) {
        Ok(design) => Ok(design),
        Err(error) => match error {
            ResolveError::Refused(_) => unreachable!(),
            ResolveError::TooBig(_) => unreachable!(),
            ResolveError::NoMemory => Err(NoMemory),
        },
    }
}

/// The generated file, as its text reads.
#[tactic(auto, using(crate::proofs::Generated::file_reads))]
fn generated_again(alloc: Global, seed: u64, cells: u32) -> Result<EdifFile, NoMemory>
    requires some { 0 < cells }
    requires few { cells ≤ 100000 }
    ensures same { IfOk result (λ file. file ≡ generated seed cells) }
    ensures small { IfOk result (λ file. edif_size file ≤ count_limit) }
{
    let file = generate(alloc, seed, cells)?;
    let read = read_again(alloc, &file)?;
    Ok(read)
}

/// The design of the generated file: the file is written to memory, read again and resolved.
///
/// # Errors
/// `NoMemory`: memory ran out. Nothing else is answered: that the text of the file is within the limit of an input and reads as the file, that
/// the file breaks no rule, and that its design is within its limit is proved.
#[tactic(auto, using(crate::proofs::Generated::file_clean, crate::proofs::Generated::file_fits, crate::proofs::Generated::design_of_same))]
pub fn generated_design(alloc: Global, seed: u64, cells: u32) -> Result<Hier, NoMemory>
    requires some { 0 < cells }
    requires few { cells ≤ 100000 }
    ensures { IfOk result (IsDesignOf (generated seed cells)) }
{
    let file = generated_again(alloc, seed, cells)?;
    let design = design_of(alloc, &file)?;
    Ok(design)
}
