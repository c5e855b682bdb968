ghost use Rattle.std.specs.Prelude.{◌≡◌, ◌≤◌, length, take, drop};
ghost use Rattle.std.specs.Fmt.{decimal, signed_decimal};

use crate::number::Int;
use itoa::Buffer;

/// Writes the decimal text to the front of `out`, which has at least 20 bytes, and answers its length. The bytes after it stay.
pub fn spell_u64(n: u64, out: &mut [u8]) -> usize
    requires { 20 ≤ length out.old }
    ensures text { take result out.new ≡ decimal n }
    ensures rest { drop result out.new ≡ drop result out.old }
    ensures len { result ≡ length (decimal n) }
    ensures fits { result ≤ 20 }
{
    let mut buffer = Buffer::new();
    let text = buffer.format(n).as_bytes();
    let (front, _) = out.split_at_mut(text.len());
    front.copy_from_slice(text);
    text.len()
}

impl Int {
    /// Writes the decimal text, with a `-` where the number is negative, to the front of `out`, which has at least 20 bytes, and answers its length.
    /// The bytes after it stay.
    pub fn spell(&self, out: &mut [u8]) -> usize
        requires { 20 ≤ length out.old }
        ensures text { take result out.new ≡ signed_decimal self.now }
        ensures rest { drop result out.new ≡ drop result out.old }
        ensures len { result ≡ length (signed_decimal self.now) }
        ensures fits { result ≤ 20 }
    {
        let mut buffer = Buffer::new();
        let text = buffer.format(self.value()).as_bytes();
        let (front, _) = out.split_at_mut(text.len());
        front.copy_from_slice(text);
        text.len()
    }
}
