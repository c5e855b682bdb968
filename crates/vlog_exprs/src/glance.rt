use nl_base::Reason;
use vlog_tokens::VToken;

/// What a token is taken for that need not be taken. A token that is left is given back.
#[derive(Drop)]
pub enum Glance<T> {
    Takes(T),
    Refuses(Reason),
    Leaves(VToken),
}
