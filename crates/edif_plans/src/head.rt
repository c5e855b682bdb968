// The identifiers by which a cell and its ports are named.
ghost use Rattle.std.specs.Prelude.{◌≡◌, ◌∷◌, [], map, IfOk};
ghost use Rattle.edif_written.specs.Naming.{seen};
ghost use Rattle.edif_plans.specs.Plans.{IsHeadOf};

use edif_spaces::idents_of;
use net_hier::HPort;
use nl_base::{Ident, NoMemory, Seq};
use std::alloc::Global;

/// The identifiers of a cell and of its ports.
#[derive(Drop)]
pub struct Head {
    pub cell: Ident,
    pub ports: Seq<Ident>,
}

/// The names of ports.
fn port_names(alloc: Global, ports: &[HPort]) -> Result<Vec<&[u8]>, NoMemory>
    ensures { IfOk result (λ names. seen names.items ≡ map (λ port. port.name) ports.now) }
{
    let mut names = Vec::with_capacity(alloc, ports.len())?;
    for port in ports {
        names.push(port.name.bytes())?;
    }
    Ok(names)
}

impl Head {
    /// The identifiers of a cell with this one and these ports.
    pub fn of_ports(alloc: Global, ident: Ident, ports: &[HPort]) -> Result<Head, NoMemory>
        ensures { IfOk result (IsHeadOf ident (map (λ port. port.name) ports.now)) }
    {
        let names = port_names(alloc, ports)?;
        let ports = idents_of(alloc, names.as_slice())?;
        Ok(Head { cell: ident, ports })
    }

    /// The identifiers of a cell with this one and one port of this name.
    pub fn of_new(alloc: Global, ident: Ident, port: &[u8]) -> Result<Head, NoMemory>
        ensures { IfOk result (IsHeadOf ident (port.now ∷ [])) }
    {
        let ports = idents_of(alloc, &[port])?;
        Ok(Head { cell: ident, ports })
    }
}
