ghost use Rattle.std.specs.Prelude.{ℕ, []};
ghost use Rattle.edif_lexing.specs.Lexing.{Lexes};
ghost use Rattle.edif_lexing.specs.Tokens.{block_tokens, CanBeLaid};
ghost use Rattle.edif_writer.specs.Layout.{Block, laid};

/// The tokens of a block's text are the block's, at whatever indent it stands.
pub fn text_lexes()
    ensures { (block : Block) (n : ℕ) → CanBeLaid block
        → Lexes (laid n block []) (block_tokens block) }
{}
