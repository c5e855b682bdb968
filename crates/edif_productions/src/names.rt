// Comments, names and properties.
ghost use Rattle.edif_values.specs.declared.keyword.Keyword.TheVariants as k;
ghost use Rattle.edif_keywords.specs.Grammar as keywords;
ghost use Rattle.edif_names.specs.Grammar as grammar;
ghost use Rattle.edif_productions.specs.Production.{HasTextsOf, form_of};
ghost use Rattle.edif_productions.specs.Header.{comment};
ghost use Rattle.edif_productions.specs.Names.{name, port_name, scaled, value, property};

/// Comments; names, names of ports, scaled numbers; the values of properties, and properties.
pub fn names_are_read()
    ensures comment { HasTextsOf (form_of k.Comment keywords.comment) comment }
    ensures name { HasTextsOf grammar.name name }
    ensures port_name { HasTextsOf grammar.port_name port_name }
    ensures scaled { HasTextsOf grammar.scaled scaled }
    ensures value { HasTextsOf grammar.value value }
    ensures property { HasTextsOf (form_of k.Property grammar.property) property }
{}
