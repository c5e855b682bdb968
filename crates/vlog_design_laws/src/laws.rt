// The laws, as contracts of functions over the definitions alone.
ghost use Rattle.net_hier.specs.Design.{Design};
ghost use Rattle.net_values.specs.ShortNames.{HasShortNames};
ghost use Rattle.net_values.specs.Sound.{IsSound};
ghost use Rattle.vlog_design.specs.Names.{Name};
ghost use Rattle.vlog_design_laws.specs.Designs.{IsVlogDesign};
ghost use Rattle.vlog_values.specs.Values.{IsVlogValue};
ghost use Rattle.vlog_values.specs.declared.module.VlogFile.{VlogFile};

/// The design of a Verilog file that is a value can be written in EDIF: its names are short, and its values are sound.
pub fn designs_are_writable()
    ensures short { (file : VlogFile) (top : Name) (design : Design)
        → IsVlogValue file → IsVlogDesign file top design → HasShortNames design }
    ensures sound { (file : VlogFile) (top : Name) (design : Design)
        → IsVlogValue file → IsVlogDesign file top design → IsSound design }
{}
