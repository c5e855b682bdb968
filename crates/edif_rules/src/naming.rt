// The names that tell an object.
ghost use Rattle.std.specs.Prelude.{◌≡◌, ◌∷◌, ◌++◌, [], IfOk, OnOk};
ghost use Rattle.edif_rules.specs.Scopes.{present};

use nl_base::{NoMemory, Seq, Text};
use std::alloc::Global;

/// Adds a name at the end.
fn push_name(alloc: Global, names: &mut Seq<Text>, name: &[u8]) -> Result<(), NoMemory>
    ensures { OnOk result (names.new ≡ names.old ++ name.now ∷ []) }
{
    let text = Text::copy(alloc, name)?;
    names.push(text)?;
    Ok(())
}

/// Adds a name at the end, where there is one.
fn push_some_name(alloc: Global, names: &mut Seq<Text>, name: Option<&[u8]>) -> Result<(), NoMemory>
    ensures { OnOk result (names.new ≡ names.old ++ present name.entry) }
{
    match name {
        None => Ok(()),
        Some(name) => {
            push_name(alloc, names, name)?;
            Ok(())
        }
    }
}

/// The name of a net, that of an instance where there is one, and that of a port.
pub fn port_names(
    alloc: Global,
    net: &[u8],
    instance: Option<&[u8]>,
    port: &[u8],
) -> Result<Seq<Text>, NoMemory>
    ensures { IfOk result (λ names. names ≡ net.now ∷ (present instance.entry ++ port.now ∷ [])) }
{
    let mut names = Seq::empty(alloc);
    push_name(alloc, &mut names, net)?;
    push_some_name(alloc, &mut names, instance)?;
    push_name(alloc, &mut names, port)?;
    Ok(names)
}
