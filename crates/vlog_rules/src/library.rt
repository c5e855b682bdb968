// The modules of a design by their names, with their ports.
ghost use Rattle.std.specs.Prelude.{◌≡◌, map, is_some, length, Some, None, option_map, MatchOption};
ghost use Rattle.vlog_design.specs.Names.{port_names};
ghost use Rattle.vlog_design.specs.Reach.{module_named};
ghost use Rattle.vlog_design.specs.Rules.{ports_named};
ghost use Rattle.vlog_design.specs.Tables.{modules_of};

use vlog_design::names::NameSet;
use vlog_values::Module;

/// Modules of different names, each with ports of different names.
#[derive(Drop)]
pub struct ModulePorts<'a> {
    pub modules: Vec<&'a Module>,
    pub names: NameSet<'a>,
    pub ports: Vec<NameSet<'a>>,
    ghost are_named: { names ≡ map (λ m. m.name) (modules_of modules.items) },
    ghost have_ports: { ports.items ≡ map port_names (modules_of modules.items) },
}

impl<'a> ModulePorts<'a> {
    /// The ports of the module of this name, where it is there.
    pub fn ports(&self, name: &[u8]) -> Option<&NameSet<'a>>
        ensures { MatchOption result (module_named (modules_of self.now.modules.items) name.now
            ≡ None) (λ ports. option_map port_names
            (module_named (modules_of self.now.modules.items) name.now) ≡ Some ports.now) }
    {
        match self.names.place(name) {
            None => None,
            Some(place) => Some(&self.ports[place]),
        }
    }

    /// Whether there is a module of this name.
    pub fn has(&self, name: &[u8]) -> bool
        ensures { result ≡ is_some (module_named (modules_of self.now.modules.items) name.now) }
    {
        match self.ports(name) {
            None => false,
            Some(_) => true,
        }
    }

    /// How many ports the module of this name has.
    pub fn port_count(&self, name: &[u8]) -> usize
        ensures { result ≡ length (ports_named (modules_of self.now.modules.items) name.now) }
    {
        match self.ports(name) {
            None => 0,
            Some(ports) => ports.len(),
        }
    }
}
