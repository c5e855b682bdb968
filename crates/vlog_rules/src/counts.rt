// How many names a module declares, for the room that is made for them: nothing else is said by these numbers, so they have no contract.
use vlog_values::{Header, ItemV, Module, ParamDecl, PortDecl};

fn count_params(decls: &[ParamDecl]) -> usize {
    let mut count: usize = 0;
    for decl in decls {
        count = count.saturating_add(decl.sets.len());
    }
    count
}

fn count_ports(decls: &[PortDecl]) -> usize {
    let mut count: usize = 0;
    for decl in decls {
        count = count.saturating_add(decl.names.len());
    }
    count
}

fn count_header(header: &Header) -> usize {
    match header {
        Header::Names(names) => names.len(),
        Header::Decls(decls) => count_ports(decls.items()),
    }
}

/// How many names an item declares that no header has: those of its ports stand there.
fn count_item(item: &ItemV) -> usize {
    match item {
        ItemV::Port(_) => 0,
        ItemV::Net(decl) => decl.names.len(),
        ItemV::Param(decl) => decl.sets.len(),
        ItemV::Instances(statement) => statement.insts.len(),
        ItemV::Assign(_) => 0,
        ItemV::Defparam(_) => 0,
    }
}

fn count_items(items: &[ItemV]) -> usize {
    let mut count: usize = 0;
    for item in items {
        count = count.saturating_add(count_item(item));
    }
    count
}

/// How many names the module declares, where a port that is a net too counts twice.
pub fn count_names(m: &Module) -> usize {
    let outer = count_params(m.params.items()).saturating_add(count_header(&m.header));
    outer.saturating_add(count_items(m.items.items()))
}

fn count_nets(items: &[ItemV]) -> usize {
    let mut count: usize = 0;
    for item in items {
        if let ItemV::Net(decl) = item {
            count = count.saturating_add(decl.names.len());
        }
    }
    count
}

/// How many ports and nets the module declares, where a port that is a net too counts twice.
pub fn count_signals(m: &Module) -> usize {
    count_header(&m.header).saturating_add(count_nets(m.items.items()))
}
