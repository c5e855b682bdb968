// Ports, instances and nets.
ghost use Rattle.edif_values.specs.declared.keyword.Keyword.TheVariants as k;
ghost use Rattle.edif_nets.specs.Grammar as grammar;
ghost use Rattle.edif_productions.specs.Production.{HasTextsOf, form_of};
ghost use Rattle.edif_productions.specs.Nets.{designator, port, instance, net};

/// Designators, ports, instances and nets.
pub fn nets_are_read()
    ensures designator { HasTextsOf (form_of k.Designator grammar.designator) designator }
    ensures port { HasTextsOf (form_of k.Port grammar.port) port }
    ensures instances { HasTextsOf (form_of k.Instance grammar.«instance») «instance» }
    ensures net { HasTextsOf (form_of k.Net grammar.net) net }
{}
