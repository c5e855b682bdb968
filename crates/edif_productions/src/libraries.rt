// Views, cells, libraries and designs.
ghost use Rattle.edif_values.specs.declared.keyword.Keyword.TheVariants as k;
ghost use Rattle.std.specs.Prelude.{true, false, []};
ghost use Rattle.edif_library.specs.Grammar as grammar;
ghost use Rattle.edif_productions.specs.Production.{HasTextsOf, form_of, form};
ghost use Rattle.edif_productions.specs.Libraries.{interface, contents, view, cell, scale, library_of, design};

/// Interfaces, contents and views; cells; scales, libraries and external libraries; designs.
pub fn libraries_are_read()
    ensures interface { HasTextsOf grammar.interface interface }
    ensures contents { HasTextsOf (form_of k.Contents (grammar.contents_rest [])) contents }
    ensures view { HasTextsOf (form_of k.View grammar.view) view }
    ensures cell { HasTextsOf (form_of k.Cell grammar.cell) cell }
    ensures scale { HasTextsOf (form_of k.Scale grammar.scale) scale }
    ensures library { HasTextsOf (form_of k.Library (grammar.library false))
        (form k.Library (library_of false)) }
    ensures external { HasTextsOf (form_of k.External (grammar.library true))
        (form k.External (library_of true)) }
    ensures design { HasTextsOf (form_of k.Design grammar.design) design }
{}
