ghost use Rattle.nl_base.specs.Texts.{kept_bytes, IsKept};
ghost use Rattle.std.specs.Prelude.{◌≡◌, ◌==◌, ◌≤◌, IfOk, length};

use crate::memory::NoMemory;
use std::alloc::Global;
use std::marker::Model;

/// The most bytes that a text keeps in itself.
pub(crate) const SHORT: usize = 14;

/// Where the bytes of a text are.
#[derive(Drop)]
pub(crate) enum Kept {
    // How many bytes there are, and they, with zeros behind them.
    Short(u8, [u8; SHORT]),
    Long(Box<Vec<u8>>),
}

/// A text of any bytes, which contracts see as the list of its bytes.
///
/// Up to 14 bytes lie in the text itself, which has 16 bytes, and others in an allocation.
pub struct Text {
    kept: Kept,
}

impl Model for Text {
    ghost use Rattle.std.specs.Prelude.{List, ℕ};

    ghost Value = { List ℕ };

    ghost use Rattle.nl_base.specs.Texts.{kept_bytes, IsKept};

    ghost view = { λ t. kept_bytes t.kept };

    ghost invariant = { λ t. IsKept t.kept };
}

// A call, and no choice between the two forms, in each function that drops a text.
impl Drop for Text {
    #[inline]
    fn drop(self) {
        let Text { kept } = self;
        drop(kept);
    }
}

impl Text {
    /// A text of these bytes.
    #[inline(always)]
    pub fn copy(alloc: Global, bytes: &[u8]) -> Result<Text, NoMemory>
        ensures { IfOk result (λ text. text ≡ bytes.now) }
    {
        if bytes.len() <= SHORT {
            return Ok(Text::short(bytes));
        }
        Text::long_copy(alloc, bytes)
    }

    /// A text of these few bytes; it takes no memory.
    #[inline(always)]
    fn short(bytes: &[u8]) -> Text
        requires { length bytes.now ≤ 14 }
        ensures { result ≡ bytes.now }
    {
        let mut short = [0; SHORT];
        let (front, _) = short.split_at_mut(bytes.len());
        front.copy_from_slice(bytes);
        Text {
            kept: Kept::Short(bytes.len() as u8, short),
        }
    }

    /// A text of these bytes, in an allocation.
    #[inline(never)]
    fn long_copy(alloc: Global, bytes: &[u8]) -> Result<Text, NoMemory>
        ensures { IfOk result (λ text. text ≡ bytes.now) }
    {
        let bytes = Vec::from_slice(alloc, bytes)?;
        Text::long(alloc, bytes)
    }

    /// The text that these bytes are, in an allocation.
    fn long(alloc: Global, bytes: Vec<u8>) -> Result<Text, NoMemory>
        ensures { IfOk result (λ text. text ≡ bytes.items) }
    {
        let long = Box::new(alloc, bytes)?;
        Ok(Text {
            kept: Kept::Long(long),
        })
    }

    /// The text that these bytes are. Few are moved into it, which takes no memory.
    #[inline]
    pub fn of(alloc: Global, bytes: Vec<u8>) -> Result<Text, NoMemory>
        ensures { IfOk result (λ text. text ≡ bytes.items) }
    {
        if bytes.len() <= SHORT {
            return Ok(Text::short(bytes.as_slice()));
        }
        Text::long(alloc, bytes)
    }

    /// Where its bytes are.
    #[inline]
    pub(crate) fn into_kept(self) -> Kept
        ensures value { kept_bytes result ≡ self }
        ensures within { IsKept result }
    {
        let Text { kept } = self;
        kept
    }

    /// Its bytes.
    #[inline]
    pub fn bytes(&self) -> &[u8]
        ensures { result.now ≡ self.now }
    {
        match &self.kept {
            Kept::Short(count, short) => {
                let (front, _) = short.split_at(*count as usize);
                front
            }
            Kept::Long(long) => long.as_slice(),
        }
    }

    /// The number of its bytes.
    #[inline]
    pub fn len(&self) -> usize
        ensures { result ≡ length self.now }
    {
        self.bytes().len()
    }

    /// Whether it has no bytes.
    pub fn is_empty(&self) -> bool
        ensures { result ≡ (length self.now == 0) }
    {
        self.bytes().is_empty()
    }
}
