// The laws, as contracts of functions over the definitions alone.
ghost use Rattle.std.specs.Prelude.{ℕ, List};
ghost use Rattle.edif_values.specs.Values.{IsWord, IsNameDef, IsEdifValue};
ghost use Rattle.edif_values.specs.declared.cell.Cell.{Cell};
ghost use Rattle.edif_values.specs.declared.name.NameDef.{NameDef};
ghost use Rattle.edif_written.specs.Naming.{name_for};
ghost use Rattle.edif_plans.specs.Sound.{AreStems, IsSoundDesign};
ghost use Rattle.edif_plans.specs.declared.plan.Plan.{Plan};
ghost use Rattle.edif_value_laws.specs.Named.{AreNamedCells};
ghost use Rattle.edif_written.specs.Written.{file_of};
ghost use Rattle.net_hier.specs.Constants.{ConstantNames};
ghost use Rattle.net_hier.specs.Design.{Design, top_name};
ghost use Rattle.net_values.specs.ShortNames.{HasShortNames};
ghost use Rattle.net_values.specs.Sound.{IsSound};

/// A file can be written whose cells are made for constants or of the cells of a design with names of at most 1,048,000 bytes and strings of
/// at most 1,048,576, where the names of the constants are stems; and so can the name of the top cell, under any identifier.
pub fn made_files_can_be_written()
    ensures value { (name design_name : NameDef) (cells : List Cell) (top : List ℕ)
        (names : ConstantNames) (design : Design) (plan : Plan)
        → AreStems names → IsSoundDesign design → AreNamedCells names design plan cells
        → IsNameDef name → IsNameDef design_name → IsWord top → IsEdifValue (file_of name design_name cells top) }
    ensures top { (ident : List ℕ) (design : Design)
        → IsWord ident → IsSoundDesign design → IsNameDef (name_for ident (top_name design.cells design.top)) }
{}

/// A design whose names are short and whose values are within the limits of both languages can be written in EDIF, as that of each Verilog
/// file that is a value.
pub fn sound_designs_with_short_names()
    ensures { (design : Design) → HasShortNames design → IsSound design → IsSoundDesign design }
{}
