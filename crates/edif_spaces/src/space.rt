// Name spaces.
ghost use Rattle.std.specs.Prelude.{◌≡◌, ◌≤◌, ◌++◌, ◌∷◌, [], false, true, is_none, length, option_to_list, IfOk, IfSome, OnErr};
ghost use Rattle.nl_base.specs.Identifiers.{is_identifier as is_identifier_text};
ghost use Rattle.edif_meanings.specs.Apart.{is_alike_any};
ghost use Rattle.edif_spaces.specs.Spaces.{IsIdentFor, IsMade, can_be_own as can_be_own_text};

use net_bits::{Names, fresh_name};
use nl_base::{Ident, NoMemory, Text, is_identifier};
use std::alloc::Global;
use std::marker::Model;

/// The greatest number of bytes of an identifier that is made.
pub const OWN_LIMIT: usize = 255;

/// The identifiers of a name space, in the order in which they were given.
#[derive(Drop)]
pub struct Space {
    used: Names,
    from: u64,
}

impl Model for Space {
    ghost use Rattle.std.specs.Prelude.{List, ℕ};
    ghost use Rattle.edif_spaces.specs.Spaces.{IsSpace};

    ghost Value = { List (List ℕ) };

    ghost view = { λ s. s.used.names };

    ghost invariant = { λ s. IsSpace s.used s.from };
}

impl Space {
    /// The name space without identifiers; it takes no memory.
    pub fn new(alloc: Global) -> Space
        ensures { result ≡ [] }
    {
        Space {
            used: Names::new(alloc, true),
            from: 0,
        }
    }

    /// The name space without identifiers, with room for so many.
    pub fn with_room(alloc: Global, count: usize) -> Result<Space, NoMemory>
        ensures { IfOk result (λ space. space ≡ []) }
    {
        Ok(Space {
            used: Names::with_room(alloc, true, count)?,
            from: 0,
        })
    }

    /// Gives the name an identifier: its own where it can be one and no other is alike, else `id` and the least number that is free.
    pub fn ident(&mut self, alloc: Global, name: &[u8]) -> Result<Ident, NoMemory>
        ensures own { can_be_own_text name.now ≡ true → is_alike_any name.now self.old ≡ false
            → IfOk result (λ ident. ident ≡ name.now) }
        ensures new { IfOk result (λ ident. is_alike_any ident self.old ≡ false) }
        ensures added { IfOk result (λ ident. self.new ≡ self.old ++ ident ∷ []) }
        ensures kept { OnErr result (self.new ≡ self.old) }
        ensures fits { IfOk result (IsIdentFor self.old name.now) }
    {
        if can_be_own(name) {
            if let Some(ident) = self.own(alloc, name)? {
                return Ok(ident);
            }
        }
        let ident = self.fresh(alloc)?;
        Ok(ident)
    }

    // Gives the name itself, where no other is alike.
    fn own(&mut self, alloc: Global, name: &[u8]) -> Result<Option<Ident>, NoMemory>
        requires own { can_be_own_text name.now ≡ true }
        ensures none { IfOk result (λ found. is_none found ≡ is_alike_any name.now self.old) }
        ensures ident { IfOk result (λ found. IfSome found (λ ident. ident ≡ name.now)) }
        ensures added { IfOk result (λ found. self.new ≡ self.old ++ option_to_list found) }
        ensures kept { OnErr result (self.new ≡ self.old) }
        ensures fits { IfOk result (λ found. IfSome found (IsIdentFor self.old name.now)) }
    {
        let text = Text::copy(alloc, name)?;
        let new = self.used.add(alloc, name)?;
        if !new {
            return Ok(None);
        }
        Ok(Some(Ident::of(text)))
    }

    // Gives `id` and the least number that is free.
    fn fresh(&mut self, alloc: Global) -> Result<Ident, NoMemory>
        ensures new { IfOk result (λ ident. is_alike_any ident self.old ≡ false) }
        ensures added { IfOk result (λ ident. self.new ≡ self.old ++ ident ∷ []) }
        ensures kept { OnErr result (self.new ≡ self.old) }
        ensures made { IfOk result (IsMade self.old) }
    {
        let (text, number) = fresh_name(alloc, &self.used, b"id", self.from)?;
        self.used.add(alloc, text.bytes())?;
        self.from = number;
        Ok(Ident::of(text))
    }
}

/// Whether the name is an identifier of at most 255 bytes.
pub fn can_be_own(name: &[u8]) -> bool
    ensures { result ≡ can_be_own_text name.now }
{
    name.len() <= OWN_LIMIT && is_identifier(name)
}
