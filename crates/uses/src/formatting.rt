ghost use Rattle.std.specs.Prelude.{◌≡◌, ◌⊎◌, IfSome, IsNone, IsSome};
ghost use Rattle.nl_base.specs.declared.fault.TextFault.{TextFault};
ghost use Rattle.edif_library.specs.Text.{EdifFault};
ghost use Rattle.uses.specs.Written.{TookText};

use edif_library::read_edif;
use edif_writer::write_edif;
use nl_base::{Place, ReadError};
use nl_io::{Sink, Source};
use std::alloc::Global;

/// Writes the normal text of an EDIF file, or answers the place of its first fault. That reading or writing failed is not told.
pub fn format<S: Source, O: Sink>(alloc: Global, source: &mut S, sink: &mut O) -> Option<Place>
    ensures fault { IfSome result (λ place. IfSome (S.supply source.old).left
        (λ bytes. (fault : TextFault) × EdifFault bytes fault × (place ≡ fault.place))) }
    ensures unwritten { IsSome result → sink.new ≡ sink.old }
    ensures written { IsNone result → (sink.new ≡ sink.old)
        ⊎ TookText O.receipt (S.supply source.old).left sink.old sink.new }
{
    match read_edif(alloc, source) {
        Ok(file) => {
            let _written = write_edif(&file, sink);
            None
        }
        Err(ReadError::Text(fault)) => Some(fault.place),
        Err(_) => None,
    }
}
