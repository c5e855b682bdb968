// Notes (EDIF 2 0 0, comment and userData).
use crate::user::UserData;
use nl_base::{Seq, Text};

/// A remark that changes nothing.
#[derive(Drop)]
pub enum Note {
    Comment(Seq<Text>),
    User(UserData),
}
