// The laws, as contracts of functions over the definitions alone.
ghost use Rattle.std.specs.Prelude.{ℕ, List};
ghost use Rattle.edif_library.specs.Text.{EdifReads};
ghost use Rattle.edif_values.specs.declared.file.EdifFile.{EdifFile};
ghost use Rattle.edif_resolve.specs.Answers.{IsDesignOf as IsEdifDesign};
ghost use Rattle.edif_values.specs.Proper.{AreBytes};
ghost use Rattle.net_flatten.specs.Flattening.{IsFlattening};
ghost use Rattle.net_flatten_fits.specs.Named.{CanBeWritten, IsNamedByBytes};
ghost use Rattle.net_hier.specs.Constants.{ConstantNames};
ghost use Rattle.net_hier.specs.Design.{Design};
ghost use Rattle.net_values.specs.ShortNames.{HasShortNames};
ghost use Rattle.net_values.specs.Sound.{IsSound};
ghost use Rattle.vlog_design.specs.Names.{Name};
ghost use Rattle.vlog_design_laws.specs.Designs.{IsVlogDesign};
ghost use Rattle.vlog_modules.specs.Text.{VlogReads};
ghost use Rattle.vlog_values.specs.Values.{IsVlogValue};
ghost use Rattle.vlog_values.specs.declared.module.VlogFile.{VlogFile};

/// The flattened design of a design with sound values has sound values, and that of a design whose names are made of bytes has short names:
/// a name of more than 1,024 bytes other than a net's breaks a rule of flattened designs.
pub fn flattened_designs_fit()
    ensures sound { (names : ConstantNames) (design flat : Design)
        → IsSound design → IsFlattening names design flat → IsSound flat }
    ensures short { (names : ConstantNames) (design flat : Design)
        → IsNamedByBytes design → IsFlattening names design flat → HasShortNames flat }
{}

/// The flattened design can be written of each design that is answered for an EDIF file that bytes read as, and of each that a Verilog file
/// says that bytes read as or that is a value.
pub fn flattened_files_fit()
    ensures edif { (bytes : List ℕ) (file : EdifFile) (names : ConstantNames) (design flat : Design)
        → AreBytes bytes → EdifReads bytes file → IsEdifDesign file design
        → IsFlattening names design flat → CanBeWritten flat }
    ensures verilog { (bytes : List ℕ) (file : VlogFile) (top : Name) (names : ConstantNames)
        → (design flat : Design) → AreBytes bytes → VlogReads bytes file
        → IsVlogDesign file top design → IsFlattening names design flat → CanBeWritten flat }
    ensures value { (file : VlogFile) (top : Name) (names : ConstantNames) (design flat : Design)
        → IsVlogValue file → IsVlogDesign file top design
        → IsFlattening names design flat → CanBeWritten flat }
{}
