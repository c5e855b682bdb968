ghost use Rattle.std.specs.Prelude.{IfSome};
ghost use Rattle.edif_library.specs.Text.{EdifReads};
ghost use Rattle.edif_values.specs.declared.file.EdifFile.{EdifFile};
ghost use Rattle.edif_resolve.specs.Answers.{IsDesignOf};
ghost use Rattle.to_verilog.specs.Answers.{IsVerilogFor};

use edif_library::read_edif;
use edif_resolve::resolve;
use net_bits::Names;
use net_hier::Hier;
use nl_io::Source;
use std::alloc::Global;
use to_verilog::to_verilog;
use vlog_values::VlogFile;

/// The design of an EDIF text that breaks no rule of EDIF, where there is one within the limits.
pub fn design_of<S: Source>(alloc: Global, source: &mut S) -> Option<Hier>
    ensures { IfSome result (λ design. (file : EdifFile)
        × IfSome (S.supply source.old).left (λ bytes. EdifReads bytes file) × IsDesignOf file design) }
{
    let file = read_edif(alloc, source).ok()?;
    resolve(alloc, &file).ok()
}

/// The modules of a design that breaks no rule of Verilog as a target: they are the same design.
pub fn modules_of(alloc: Global, design: &Hier) -> Option<VlogFile>
    ensures { IfSome result (IsVerilogFor design.now) }
{
    let no_parameters = Names::new(alloc, false);
    match to_verilog(alloc, design, &no_parameters) {
        Ok(modules) => Some(modules),
        Err(_) => None,
    }
}
