// Modules and files (IEEE 1364-2005, 12.1).
use crate::declaration::{NetDecl, ParamDecl, PortDecl};
use crate::expression::Attr;
use crate::statement::{Assigns, Defparams, Instances};
use nl_base::{BoxedList, InlineList, Seq, Text};

/// What may stand in a module.
#[derive(Drop)]
pub enum ItemV {
    Port(PortDecl),
    Net(NetDecl),
    Param(ParamDecl),
    Assign(Assigns),
    Instances(Instances),
    Defparam(Defparams),
}

/// The ports of a module: names that items declare, or declarations.
#[derive(Drop)]
pub enum Header {
    Names(InlineList<Text>),
    Decls(Seq<PortDecl>),
}

/// A module. `implicit` says whether names may be used as nets without a declaration.
#[derive(Drop)]
pub struct Module {
    pub attrs: BoxedList<Attr>,
    pub name: Text,
    pub implicit: bool,
    pub params: Seq<ParamDecl>,
    pub header: Header,
    pub items: Seq<ItemV>,
}

/// A file of modules.
#[derive(Drop)]
pub struct VlogFile {
    pub modules: Seq<Module>,
}
