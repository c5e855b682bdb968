// The `(` and the word that are next and begin a form, where the bytes that are held show both. They are taken with no token made.
ghost use Rattle.std.specs.Prelude.{◌≡◌, ◌<◌, ◌≤◌, length, drop, Some};
ghost use Rattle.edif_tokens.specs.Held.{past_mark, held_word, past_word};
ghost use Rattle.edif_tokens.specs.HeldForm.{no_form, form_behind, form_at, open_behind, open_at, opened_by, shows_word};

use crate::ahead::{is_near, pass_mark_behind, pass_word_behind, word_length};
use crate::scan::may_follow;
use nl_bytes::{Bytes, Class};

/// Where a form begins in what is held: how many bytes of white space stand before its `(` and behind it, and how many bytes
/// its word has. The word has none where these are not held whole, with the byte behind the word.
#[derive(Clone, Copy)]
pub struct FormAt {
    pub space: usize,
    pub inner: usize,
    pub count: usize,
}

/// Where a `(` stands in what is held: how many bytes of white space stand before it and behind it.
#[derive(Clone, Copy)]
pub struct OpenAt {
    pub space: usize,
    pub inner: usize,
}

/// No form.
#[inline(always)]
fn no_form() -> FormAt
    ensures { result ≡ no_form }
{
    FormAt {
        space: 0,
        inner: 0,
        count: 0,
    }
}

/// Where a form begins at the front of some bytes, behind so many bytes of white space.
#[inline(always)]
fn form_behind(space: usize, bytes: &[u8]) -> FormAt
    ensures { result ≡ form_behind space bytes.now }
{
    match bytes {
        [first, behind @ ..] => {
            if *first != b'(' {
                return no_form();
            }
            let inner = Class::Space.front(behind);
            let (_, word) = behind.split_at(inner);
            FormAt {
                space,
                inner,
                count: word_length(word),
            }
        }
        [] => no_form(),
    }
}

/// Where the form that is next begins.
#[inline(always)]
#[tactic(auto, unfolding(crate::specs::HeldForm::form_at))]
pub fn form_at(bytes: &Bytes) -> FormAt
    ensures { result ≡ form_at bytes.now }
{
    if !is_near(bytes) {
        return no_form();
    }
    let held = bytes.held();
    let space = Class::Space.front(held);
    let (_, front) = held.split_at(space);
    form_behind(space, front)
}

/// The bytes behind so many.
#[inline(always)]
fn behind(bytes: &[u8], count: usize) -> &[u8]
    requires { count ≤ length bytes.now }
    ensures { result.now ≡ drop count bytes.now }
{
    let (_, rest) = bytes.split_at(count);
    rest
}

/// The word of the form that is next.
#[inline(always)]
pub fn form_word(bytes: &Bytes, at: FormAt) -> &[u8]
    requires some { 0 < at.count }
    requires form { at ≡ form_at bytes.now }
    ensures { result.now ≡ held_word (past_mark bytes.now) }
{
    let front = behind(bytes.held(), at.space);
    let opened = behind(front, 1);
    let inside = behind(opened, at.inner);
    let (word, _) = inside.split_at(at.count);
    word
}

/// Uses the `(` and the word of the form that is next.
#[inline(always)]
pub fn pass_form(bytes: &mut Bytes, at: FormAt)
    requires some { 0 < at.count }
    requires form { at ≡ form_at bytes.old }
    ensures { bytes.new ≡ past_word (past_mark bytes.old) }
{
    pass_mark_behind(bytes, at.space);
    pass_word_behind(bytes, at.inner, at.count)
}

/// Where the `(` at the front of some bytes stands, behind so many bytes of white space.
#[inline(always)]
fn open_behind(space: usize, bytes: &[u8]) -> Option<OpenAt>
    ensures { result ≡ open_behind space bytes.now }
{
    match bytes {
        [first, behind @ ..] => {
            if *first != b'(' {
                return None;
            }
            let inner = Class::Space.front(behind);
            Some(OpenAt { space, inner })
        }
        [] => None,
    }
}

/// Where the `(` that is next stands.
#[inline(always)]
#[tactic(auto, unfolding(crate::specs::HeldForm::open_at))]
pub fn open_at(bytes: &Bytes) -> Option<OpenAt>
    ensures { result ≡ open_at bytes.now }
{
    if !is_near(bytes) {
        return None;
    }
    let held = bytes.held();
    let space = Class::Space.front(held);
    let (_, front) = held.split_at(space);
    open_behind(space, front)
}

/// What is held behind the `(` that is next and the white space behind it.
#[inline(always)]
pub fn opened(bytes: &Bytes, at: OpenAt) -> &[u8]
    requires { open_at bytes.now ≡ Some at }
    ensures { result.now ≡ opened_by at bytes.now.held }
{
    let front = behind(bytes.held(), at.space);
    let opened = behind(front, 1);
    let inside = behind(opened, at.inner);
    inside
}

/// Whether some bytes begin with this word, and then have a byte that may follow a word.
#[inline(always)]
pub fn shows_word(bytes: &[u8], word: &[u8]) -> bool
    ensures { result ≡ shows_word bytes.now word.now }
{
    if word.len() >= bytes.len() {
        return false;
    }
    let (front, _) = bytes.split_at(word.len());
    front == word && may_follow(bytes[word.len()])
}
