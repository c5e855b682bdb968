// User data, notes and status.
ghost use Rattle.edif_values.specs.declared.keyword.Keyword.TheVariants as k;
ghost use Rattle.edif_keywords.specs.Grammar.{item};
ghost use Rattle.edif_status.specs.Grammar as grammar;
ghost use Rattle.edif_productions.specs.Production.{HasTextsOf, form_of};
ghost use Rattle.edif_productions.specs.Notes.{user_data, note, written, status};

/// User data; notes; what is written of a status, and statuses.
pub fn notes_are_read()
    ensures user_data { HasTextsOf (form_of k.UserData grammar.user) user_data }
    ensures note { HasTextsOf (item grammar.note_keywords grammar.note) note }
    ensures written { HasTextsOf (form_of k.Written grammar.written) written }
    ensures status { HasTextsOf (form_of k.Status grammar.status) status }
{}
