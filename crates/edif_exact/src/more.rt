// Where the readers of parts need one more token.
ghost use Rattle.edif_keywords.specs.Grammar.{comment};
ghost use Rattle.edif_values.specs.declared.keyword.Keyword.{Keyword};
ghost use Rattle.edif_names.specs.Grammar.{name, port_name, scaled, property};
ghost use Rattle.edif_status.specs.Grammar.{user, note, status};
ghost use Rattle.edif_nets.specs.Grammar.{port, designator, instance, net};
ghost use Rattle.edif_exact.specs.Open.{NeedsMoreSo};

/// A comment, behind its keyword.
pub fn comments_need_more()
    ensures { NeedsMoreSo comment }
{}

/// The name of an object, with its text where it is renamed.
pub fn names_need_more()
    ensures { NeedsMoreSo name }
{}

/// The name of a port, or of an array of ports.
pub fn port_names_need_more()
    ensures { NeedsMoreSo port_name }
{}

/// A number with a power of ten.
pub fn scaled_numbers_need_more()
    ensures { NeedsMoreSo scaled }
{}

/// A property, behind its keyword.
pub fn properties_need_more()
    ensures { NeedsMoreSo property }
{}

/// User data, behind its keyword.
pub fn user_data_need_more()
    ensures { NeedsMoreSo user }
{}

/// A comment or user data, behind its keyword.
pub fn notes_need_more()
    ensures { (keyword : Keyword) → NeedsMoreSo (note keyword) }
{}

/// A status, behind its keyword.
pub fn statuses_need_more()
    ensures { NeedsMoreSo status }
{}

/// A designator, behind its keyword.
pub fn designators_need_more()
    ensures { NeedsMoreSo designator }
{}

/// A port, behind its keyword.
pub fn ports_need_more()
    ensures { NeedsMoreSo port }
{}

/// An instance, behind its keyword.
pub fn instances_need_more()
    ensures { NeedsMoreSo «instance» }
{}

/// A net, behind its keyword.
pub fn nets_need_more()
    ensures { NeedsMoreSo net }
{}
