// The header of a module.
ghost use Rattle.std.specs.Prelude.{◌≡◌, map, IfOk};
ghost use Rattle.vlog_written.specs.Written.{plain_header, port_decl_of};
ghost use Rattle.to_verilog_items.specs.Header.{plain_port};

use net_hier::HPort;
use nl_base::{InlineList, NoMemory, Seq, Text};
use std::alloc::Global;
use to_verilog_props::attrs_of_list;
use vlog_values::{Header, PortDecl};

/// The declaration of a port.
fn decl_of(alloc: Global, port: &HPort) -> Result<PortDecl, NoMemory>
    ensures { IfOk result (λ made. made ≡ port_decl_of (plain_port port.now)) }
{
    let attrs = attrs_of_list(alloc, port.props.items())?;
    let name = Text::copy(alloc, port.name.bytes())?;
    Ok(PortDecl {
        attrs,
        dir: port.dir,
        kind: None,
        signed: false,
        range: port.range,
        names: InlineList::one(name),
    })
}

/// The declarations of ports.
fn decls_of(alloc: Global, ports: &[HPort]) -> Result<Seq<PortDecl>, NoMemory>
    ensures { IfOk result (λ made. made ≡ map (λ port. port_decl_of (plain_port port)) ports.now) }
{
    let mut decls = Seq::empty(alloc);
    for port in ports {
        let decl = decl_of(alloc, port)?;
        decls.push(decl)?;
    }
    Ok(decls)
}

/// The header that declares the ports, each by itself.
pub fn header_of(alloc: Global, ports: &[HPort]) -> Result<Header, NoMemory>
    ensures { IfOk result (λ made. made ≡ plain_header (map plain_port ports.now)) }
{
    if ports.is_empty() {
        return Ok(Header::Names(InlineList::empty()));
    }
    let decls = decls_of(alloc, ports)?;
    Ok(Header::Decls(decls))
}
