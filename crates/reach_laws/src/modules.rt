// Reach among the modules of a Verilog file.
ghost use Rattle.std.specs.Prelude.{◌≡◌, ◌↔◌, ℕ, List, true};
ghost use Rattle.net_graph.specs.Marks.{marks_of};
ghost use Rattle.reach_laws.specs.Modules.{AreThose, IsFirstClosing, IsReachedFrom, IsUnder, Reaches};
ghost use Rattle.vlog_design.specs.Names.{Name};
ghost use Rattle.vlog_design.specs.Reach.{marked, modules_below, reached, reaches};
ghost use Rattle.vlog_design.specs.Rules.{recursions};
ghost use Rattle.vlog_values.specs.declared.module.Module.{Module};
ghost use Rattle.vlog_values.specs.declared.module.VlogFile.{VlogFile};

/// The modules that are marked from a number on are those that are reached from the module of this number, in file order.
pub fn marked_modules_are_reached()
    ensures { (modules : List Module) (top : ℕ)
        → AreThose (IsUnder modules top) 0 modules
        (marked (marks_of (modules_below modules) top) modules) }
{}

/// The modules that are reached from a top are those to which instances lead from the module of its name, in file order; none where
/// no module has the name.
pub fn modules_are_reached()
    ensures { (file : VlogFile) (top : Name)
        → AreThose (IsReachedFrom file.modules top) 0 file.modules (reached file top) }
{}

/// A module reaches another exactly where instances lead from the one down to the other, or both are the same.
pub fn modules_reach()
    ensures { (modules : List Module) (from to : Name) → (reaches modules from to ≡ true)
        ↔ Reaches modules from to }
{}

/// A module is refused for recursion by its first instance whose module is that module or reaches it, and by none where there is none.
pub fn recursion_is_reach()
    ensures { (modules : List Module) (m : Module)
        → IsFirstClosing modules m (recursions modules m) }
{}
