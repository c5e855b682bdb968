ghost use Rattle.std.specs.Prelude.{[]};
ghost use Rattle.vlog_lexing.specs.Lexing.{Lexes};
ghost use Rattle.vlog_lexing.specs.Tokens.{line_tokens, CanBeLaid};
ghost use Rattle.vlog_writer.specs.Layout.{Lines, laid};

/// The tokens of the text of lines are those of the lines.
pub fn text_lexes()
    ensures { (lines : Lines) → CanBeLaid lines → Lexes (laid lines []) (line_tokens lines []) }
{}
