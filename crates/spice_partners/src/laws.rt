// The law of files that are written for designs.
ghost use Rattle.net_hier.specs.Design.{Design};
ghost use Rattle.net_hier.specs.Valid.{IsValid};
ghost use Rattle.spice_partners.specs.Partners.{AreSubcktsFor};
ghost use Rattle.spice_partners.specs.SamePins.{SamePins};
ghost use Rattle.spice_partners.specs.SpiceDesign.{spice_design};
ghost use Rattle.spice_text.specs.declared.file.SpiceFile.{SpiceFile};
ghost use Rattle.to_spice_rules.specs.Answers.{KeepsRules};

/// A file of subcircuits that are written for the cells of a design that keeps the rules of SPICE
/// says a design with the same pins.
pub fn written_subcircuits_keep_the_pins()
    ensures { (design : Design) (file : SpiceFile) → IsValid design → KeepsRules design.cells
        → AreSubcktsFor design file.cells → SamePins design (spice_design file) }
{}
