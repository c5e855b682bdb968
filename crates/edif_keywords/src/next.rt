// The calls that ask what the next token is, and the end of the input.
ghost use Rattle.std.specs.Prelude.{◌≡◌, OnOk, IsSome};
ghost use Rattle.edif_keywords.specs.Language.{edif};
ghost use Rattle.edif_keywords.specs.Reasons.{opens, has_string, trailing};
ghost use Rattle.readers.specs.Readers.{LooksAt, LooksFor, Ends};

use crate::cursor::Cursor;
use edif_tokens::Found;
use edif_values::Token;
use nl_base::{ReadError, Reason};
use nl_io::Source;
use std::alloc::Global;

impl Cursor {
    /// Answers whether the next token, which has to be there, is `(`. It takes nothing.
    #[inline(always)]
    pub fn at_form<S: Source>(&mut self, alloc: Global, source: &mut S) -> Result<bool, ReadError>
        ensures looks { LooksAt edif opens result self.old self.new
            (S.supply source.old) (S.supply source.new) }
    {
        if let Some(mark) = self.held_mark() {
            return Ok(mark == b'(');
        }
        let count = self.held_word().len();
        if count > 0 {
            return Ok(false);
        }
        self.look_form(alloc, source)
    }

    /// Makes the next token the one ahead, which has to be there, and answers whether it is `(`. It takes nothing.
    #[inline(never)]
    #[tactic(auto, using(crate::proofs::Looks::forms_next))]
    pub fn look_form<S: Source>(&mut self, alloc: Global, source: &mut S) -> Result<bool, ReadError>
        ensures looks { LooksAt edif opens result self.old self.new
            (S.supply source.old) (S.supply source.new) }
        ensures ahead { OnOk result (IsSome self.new.ahead) }
    {
        self.look(alloc, source)?;
        match self.ahead() {
            Some(found) => Ok(opens(found)),
            None => Err(self.ended()),
        }
    }

    /// Answers whether there is a next token and it is a string. It takes nothing.
    #[tactic(auto, using(crate::proofs::Looks::strings_next))]
    pub fn at_string<S: Source>(&mut self, alloc: Global, source: &mut S) -> Result<bool, ReadError>
        ensures { LooksFor edif has_string result self.old self.new
            (S.supply source.old) (S.supply source.new) }
    {
        self.look(alloc, source)?;
        if let Some(found) = self.ahead() {
            return Ok(has_string(found));
        }
        Ok(false)
    }

    /// Takes the end of the input.
    #[tactic(auto, using(crate::proofs::Looks::ends))]
    pub fn end_of_input<S: Source>(
        &mut self,
        alloc: Global,
        source: &mut S,
    ) -> Result<(), ReadError>
        ensures { Ends edif trailing result self.old self.new
            (S.supply source.old) (S.supply source.new) }
    {
        if self.look(alloc, source)? {
            return Err(self.refuse(Reason::Trailing));
        }
        Ok(())
    }
}

#[tactic(auto, unfolding(crate::specs::Reasons::opens))]
fn opens(found: &Found) -> bool
    ensures { result ≡ opens found.now }
{
    matches!(&found.token, Token::LeftParen)
}

#[tactic(auto, unfolding(crate::specs::Reasons::has_string))]
fn has_string(found: &Found) -> bool
    ensures { result ≡ has_string found.now }
{
    matches!(&found.token, Token::Str(_))
}
