// The kinds of declarations of each name.
use indexmap::IndexMap;
use nl_base::NoMemory;
use std::alloc::Global;
use std::marker::Model;
use vlog_design::signals::Kind;

/// The kinds of the declarations of one name.
#[derive(Clone, Copy)]
pub struct Kinds {
    pub header: bool,
    pub direction: bool,
    pub net: bool,
    pub instance: bool,
    pub parameter: bool,
}

/// The kinds of the declarations that were met, by their names.
#[derive(Drop)]
pub struct Met<'a> {
    kinds: IndexMap<&'a [u8], Kinds>,
}

impl<'a> Model for Met<'a> {
    ghost use Rattle.std.specs.Prelude.{List};
    ghost use Rattle.vlog_design.specs.Names.{Name};
    ghost use Rattle.vlog_rules.specs.declared.kinds.Kinds.{Kinds};
    ghost use Rattle.vlog_rules.specs.Kinds.{named_kinds};

    ghost Value = { List (Name × Kinds) };

    ghost view = { λ m. named_kinds m.kinds.entries };
}

ghost use Rattle.std.specs.Prelude.{◌≡◌, bytes_eq, if◌then◌else◌, IfOk, OnOk};
ghost use Rattle.vlog_design.specs.Names.{Name};
ghost use Rattle.vlog_rules.specs.Kinds.{clashes_with, kept_kinds, no_kinds, with_kind};

fn no_kinds() -> Kinds
    ensures { result ≡ no_kinds }
{
    Kinds {
        header: false,
        direction: false,
        net: false,
        instance: false,
        parameter: false,
    }
}

/// The kinds with one more.
fn with_kind(kind: Kind, kinds: Kinds) -> Kinds
    ensures { result ≡ with_kind kind kinds }
{
    match kind {
        Kind::InHeader => Kinds {
            header: true,
            ..kinds
        },
        Kind::Direction => Kinds {
            direction: true,
            ..kinds
        },
        Kind::NetDeclaration => Kinds { net: true, ..kinds },
        Kind::Instance => Kinds {
            instance: true,
            ..kinds
        },
        Kind::Parameter => Kinds {
            parameter: true,
            ..kinds
        },
    }
}

/// Whether a declaration of this kind clashes with one of these of the same name.
fn clashes_with(kind: Kind, kinds: Kinds) -> bool
    ensures { result ≡ clashes_with kind kinds }
{
    let Kinds {
        header,
        direction,
        net,
        instance,
        parameter,
    } = kinds;
    match kind {
        Kind::InHeader => header | instance | parameter,
        Kind::Direction => direction | instance | parameter,
        Kind::NetDeclaration => net | instance | parameter,
        Kind::Instance => header | direction | net | instance | parameter,
        Kind::Parameter => header | direction | net | instance | parameter,
    }
}

impl<'a> Met<'a> {
    /// No declarations.
    pub fn empty(alloc: Global) -> Met<'a>
        ensures { (name : Name) → kept_kinds result name ≡ no_kinds }
    {
        Met {
            kinds: IndexMap::new(alloc),
        }
    }

    /// Notes a declaration, and answers whether one that was met clashes with it.
    pub fn note(&mut self, kind: Kind, name: &'a [u8]) -> Result<bool, NoMemory>
        ensures clashes { IfOk result
            (λ clashes. clashes ≡ clashes_with kind (kept_kinds self.old name.now)) }
        ensures noted { OnOk result ((other : Name)
            → kept_kinds self.new other
            ≡ (if bytes_eq other name.now then with_kind kind
            (kept_kinds self.old other) else kept_kinds self.old other)) }
    {
        let first = with_kind(kind, no_kinds());
        let before = self.kinds.insert(name, first)?;
        match before {
            None => Ok(false),
            Some(kinds) => {
                self.kinds.insert(name, with_kind(kind, kinds))?;
                Ok(clashes_with(kind, kinds))
            }
        }
    }
}
