// The laws of files of plain modules.
ghost use Rattle.std.specs.Prelude.{◌≡◌, ℕ, List, [], None, Some, map, slice_get};
ghost use Rattle.vlog_design.specs.Design.{module_cell, vlog_design};
ghost use Rattle.vlog_design.specs.Names.{Name};
ghost use Rattle.vlog_design.specs.Reach.{module_number};
ghost use Rattle.vlog_design.specs.Rules.{first_G};
ghost use Rattle.vlog_plain.specs.Parts.{plain_cell};
ghost use Rattle.vlog_plain.specs.Plain.{IsPlainFile, IsPlainModule, plain_file, plain_modules};
ghost use Rattle.vlog_values.specs.declared.module.Module.{Module};
ghost use Rattle.vlog_written.specs.OwnNames.{AreApart};
ghost use Rattle.vlog_written.specs.Written.{PlainModule, plain_module};

/// A file of plain modules that fit together breaks no rule under the name of its top.
pub fn plain_files_break_no_rule()
    ensures { (ps : List PlainModule) (top : ℕ) (name : Name)
        → IsPlainFile ps top name → first_G (plain_file ps) name ≡ None }
{}

/// The cell of a plain module has the ports, nets and instances that are written. The names of a
/// plain module of a file are apart.
pub fn plain_modules_are_cells()
    ensures cells { (modules : List Module) (p : PlainModule)
        → AreApart p → module_cell modules (plain_module p) ≡ plain_cell modules p }
    ensures apart { (ps : List PlainModule) (place : ℕ) (p : PlainModule)
        → IsPlainModule ps place p → AreApart p }
{}

/// In the design of a file of plain modules that fit together each module is a cell, in the order
/// of the file, its number is its place, and the top is at the place of the top.
pub fn plain_files_are_designs()
    ensures cells { (ps : List PlainModule) (top : ℕ) (name : Name) → IsPlainFile ps top name
        → (vlog_design (plain_file ps) name).cells ≡ map (plain_cell (plain_modules ps)) ps }
    ensures top { (ps : List PlainModule) (top : ℕ) (name : Name) → IsPlainFile ps top name
        → (vlog_design (plain_file ps) name).top ≡ top }
    ensures numbers { (ps : List PlainModule) (top : ℕ) (name : Name) → IsPlainFile ps top name
        → (place : ℕ) (p : PlainModule) → slice_get ps place ≡ Some p
        → module_number (plain_modules ps) p.name ≡ place }
{}
