// User data (EDIF 2 0 0, userData).
use nl_base::{Ident, Int, Seq, Text};

/// A tree in user data: a word, a number, a string, or a list of trees (EDIF 2 0 0, userData).
#[derive(Drop)]
pub enum UserTree {
    Word(Ident),
    Number(Int),
    Str(Text),
    List(Seq<UserTree>),
}

/// Data of a tool of its own, which no rule looks at. Its lists are at most 64 deep.
#[derive(Drop)]
pub struct UserData {
    pub name: Ident,
    pub trees: Seq<UserTree>,
}
