// The modules of a design by their names.
ghost use Rattle.std.specs.Prelude.{◌≡◌, [], map, IfOk};
ghost use Rattle.vlog_design.specs.Names.{port_names};
ghost use Rattle.vlog_design.specs.Tables.{modules_of};
ghost use Rattle.vlog_scopes.specs.Distinct.{AreDeclaredOnce, Distinct, module_names};

use crate::lists::port_set;
use nl_base::NoMemory;
use std::alloc::Global;
use vlog_design::names::NameSet;
use vlog_rules::library::ModulePorts;
use vlog_values::Module;

/// The set of the names of modules, in their order, which differ.
pub fn module_set<'a>(alloc: Global, modules: &[&'a Module]) -> Result<NameSet<'a>, NoMemory>
    requires { Distinct (module_names (modules_of modules.now)) }
    ensures { IfOk result (λ set. set ≡ module_names (modules_of modules.now)) }
{
    let mut set = NameSet::empty(alloc);
    for m in modules {
        set.add(m.name.bytes())?;
    }
    Ok(set)
}

fn port_sets<'a>(alloc: Global, modules: &[&'a Module]) -> Result<Vec<NameSet<'a>>, NoMemory>
    requires { AreDeclaredOnce (modules_of modules.now) }
    ensures { IfOk result (λ ports. ports.items ≡ map port_names (modules_of modules.now)) }
{
    let mut ports = Vec::with_capacity(alloc, modules.len())?;
    for m in modules {
        ports.push(port_set(alloc, *m)?)?;
    }
    Ok(ports)
}

/// The modules by their names, each with its ports. It takes time in proportion to the modules.
pub fn library_of<'a>(alloc: Global, modules: Vec<&'a Module>) -> Result<ModulePorts<'a>, NoMemory>
    requires differ { Distinct (module_names (modules_of modules.items)) }
    requires once { AreDeclaredOnce (modules_of modules.items) }
    ensures { IfOk result (λ library. modules_of library.modules.items
        ≡ modules_of modules.entry.items) }
{
    let names = module_set(alloc, &modules)?;
    let ports = port_sets(alloc, &modules)?;
    Ok(ModulePorts {
        modules,
        names,
        ports,
    })
}
