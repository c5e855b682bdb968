// Productions that public readers of parts take, each with its law.
ghost use Rattle.edif_keywords.specs.Grammar.{comment};
ghost use Rattle.edif_values.specs.declared.keyword.Keyword.{Keyword};
ghost use Rattle.edif_names.specs.Grammar.{name, port_name, scaled, property};
ghost use Rattle.edif_status.specs.Grammar.{user, note, status};
ghost use Rattle.edif_nets.specs.Grammar.{port, designator, instance, net};
ghost use Rattle.edif_laws.specs.Exact.{IsReadExactly};

/// A comment, behind its keyword.
pub fn comments_are_exact()
    ensures { IsReadExactly comment }
{}

/// The name of an object, with its text where it is renamed.
pub fn names_are_exact()
    ensures { IsReadExactly name }
{}

/// The name of a port, or of an array of ports.
pub fn port_names_are_exact()
    ensures { IsReadExactly port_name }
{}

/// A number with a power of ten.
pub fn scaled_numbers_are_exact()
    ensures { IsReadExactly scaled }
{}

/// A property, behind its keyword.
pub fn properties_are_exact()
    ensures { IsReadExactly property }
{}

/// User data, behind its keyword.
pub fn user_data_is_exact()
    ensures { IsReadExactly user }
{}

/// A comment or user data, behind its keyword.
pub fn notes_are_exact()
    ensures { (keyword : Keyword) → IsReadExactly (note keyword) }
{}

/// A status, behind its keyword.
pub fn statuses_are_exact()
    ensures { IsReadExactly status }
{}

/// A designator, behind its keyword.
pub fn designators_are_exact()
    ensures { IsReadExactly designator }
{}

/// A port, behind its keyword.
pub fn ports_are_exact()
    ensures { IsReadExactly port }
{}

/// An instance, behind its keyword.
pub fn instances_are_exact()
    ensures { IsReadExactly «instance» }
{}

/// A net, behind its keyword.
pub fn nets_are_exact()
    ensures { IsReadExactly net }
{}
