ghost use Rattle.std.specs.Prelude.{◌≡◌, ◌+◌, ◌<◌, [], IfOk};
ghost use Rattle.readers.specs.Readers.{same, Reads, LooksFor, room};
ghost use Rattle.edif_keywords.specs.Language.{edif};
ghost use Rattle.edif_values.specs.Values.{AreTrees, IsTree, IsUserData};
ghost use Rattle.edif_values.specs.Sizes.{list_size, tree_size};
ghost use Rattle.edif_status.specs.Grammar.{begins_tree, has_number, plain, leaf, trees, user_tree, user_list, user};

use edif_keywords::Cursor;
use edif_tokens::Found;
use edif_values::{Token, UserData, UserTree};
use nl_base::{ReadError, Reason, Seq};
use nl_io::Source;
use std::alloc::Global;

/// Reads on after the keyword `userData`: a name, and trees whose lists are at most 64 deep.
#[tactic(auto, using(readers::proofs::Reading::sequences), unfolding(crate::specs::Grammar::user))]
pub fn read_user<S: Source>(
    alloc: Global,
    cursor: &mut Cursor,
    source: &mut S,
) -> Result<UserData, ReadError>
    ensures reads { Reads edif same user result cursor.old cursor.new
        (S.supply source.old) (S.supply source.new) }
    ensures value { IfOk result IsUserData }
    ensures size { IfOk result
        (λ u. list_size tree_size u.trees + room cursor.new < room cursor.old) }
{
    let name = cursor.word(alloc, source)?;
    let trees = read_trees(alloc, cursor, 64, source)?;
    Ok(UserData { name, trees })
}

/// Reads trees up to the end of the list around them, where `levels` lists may be opened, one in another.
#[cycle(trees)]
#[tactic(auto, using(crate::proofs::Trees::tree_loops))]
fn read_trees<S: Source>(
    alloc: Global,
    cursor: &mut Cursor,
    levels: u8,
    source: &mut S,
) -> Result<Seq<UserTree>, ReadError>
    ensures reads { Reads edif same (trees levels []) result cursor.old cursor.new
        (S.supply source.old) (S.supply source.new) }
    ensures value { IfOk result (AreTrees levels) }
    ensures size { IfOk result (λ ts. list_size tree_size ts + room cursor.new < room cursor.old) }
{
    let mut trees = Seq::empty(alloc);
    while at_tree(alloc, cursor, source)? {
        let tree = read_tree(alloc, cursor, levels, source)?;
        cursor.add(&mut trees, tree)?;
    }
    cursor.finish_form(alloc, source)?;
    Ok(trees)
}

/// Reads a tree where `levels` lists may be opened, one in another.
#[cycle(trees)]
#[tactic(auto, using(crate::proofs::Trees::tree_choice))]
fn read_tree<S: Source>(
    alloc: Global,
    cursor: &mut Cursor,
    levels: u8,
    source: &mut S,
) -> Result<UserTree, ReadError>
    ensures reads { Reads edif same (user_tree levels) result cursor.old cursor.new
        (S.supply source.old) (S.supply source.new) }
    ensures value { IfOk result (IsTree levels) }
    ensures size { IfOk result (λ t. tree_size t + room cursor.new < room cursor.old) }
{
    if cursor.look_form(alloc, source)? {
        if levels == 0 {
            return Err(cursor.refuse(Reason::TooDeep));
        }
        return read_list(alloc, cursor, levels - 1, source);
    }
    read_leaf(alloc, cursor, source)
}

/// Reads a list in which `levels` lists may be opened, one in another.
#[cycle(trees)]
#[tactic(auto, using(readers::proofs::Reading::sequences), unfolding(crate::specs::Grammar::user_list))]
fn read_list<S: Source>(
    alloc: Global,
    cursor: &mut Cursor,
    levels: u8,
    source: &mut S,
) -> Result<UserTree, ReadError>
    ensures reads { Reads edif same (user_list levels) result cursor.old cursor.new
        (S.supply source.old) (S.supply source.new) }
    ensures value { IfOk result (IsTree (levels + 1)) }
    ensures size { IfOk result (λ t. tree_size t + room cursor.new < room cursor.old) }
{
    cursor.begin_list(alloc, source)?;
    let trees = read_trees(alloc, cursor, levels, source)?;
    Ok(UserTree::List(trees))
}

/// Reads a tree that is no list.
#[tactic(auto, using(crate::proofs::Kept::leaf_values))]
fn read_leaf<S: Source>(
    alloc: Global,
    cursor: &mut Cursor,
    source: &mut S,
) -> Result<UserTree, ReadError>
    ensures reads { Reads edif same leaf result cursor.old cursor.new
        (S.supply source.old) (S.supply source.new) }
    ensures value { IfOk result (IsTree 0) }
    ensures size { IfOk result (λ t. tree_size t + room cursor.new < room cursor.old) }
{
    if cursor.at_string(alloc, source)? {
        let text = cursor.string(alloc, source)?;
        return Ok(UserTree::Str(text));
    }
    read_plain(alloc, cursor, source)
}

/// Reads a tree that is a number or a word.
#[tactic(auto, using(crate::proofs::Kept::leaf_values))]
fn read_plain<S: Source>(
    alloc: Global,
    cursor: &mut Cursor,
    source: &mut S,
) -> Result<UserTree, ReadError>
    ensures reads { Reads edif same plain result cursor.old cursor.new
        (S.supply source.old) (S.supply source.new) }
    ensures value { IfOk result (IsTree 0) }
    ensures size { IfOk result (λ t. tree_size t + room cursor.new < room cursor.old) }
{
    if at_number(alloc, cursor, source)? {
        let number = cursor.int(alloc, source)?;
        return Ok(UserTree::Number(number));
    }
    let word = cursor.word(alloc, source)?;
    Ok(UserTree::Word(word))
}

/// Whether there is a next token that begins a tree. It takes nothing.
#[tactic(auto, using(crate::proofs::Trees::trees_next))]
fn at_tree<S: Source>(alloc: Global, cursor: &mut Cursor, source: &mut S) -> Result<bool, ReadError>
    ensures { LooksFor edif begins_tree result cursor.old cursor.new
        (S.supply source.old) (S.supply source.new) }
{
    cursor.look(alloc, source)?;
    if let Some(found) = cursor.ahead() {
        return Ok(begins_tree(found));
    }
    Ok(false)
}

/// Whether there is a next token that is a number. It takes nothing.
#[tactic(auto, using(crate::proofs::Trees::numbers_next))]
fn at_number<S: Source>(
    alloc: Global,
    cursor: &mut Cursor,
    source: &mut S,
) -> Result<bool, ReadError>
    ensures { LooksFor edif has_number result cursor.old cursor.new
        (S.supply source.old) (S.supply source.new) }
{
    cursor.look(alloc, source)?;
    if let Some(found) = cursor.ahead() {
        return Ok(has_number(found));
    }
    Ok(false)
}

#[tactic(auto, unfolding(crate::specs::Grammar::begins_tree))]
fn begins_tree(found: &Found) -> bool
    ensures { result ≡ begins_tree found.now }
{
    !matches!(&found.token, Token::RightParen)
}

#[tactic(auto, unfolding(crate::specs::Grammar::has_number))]
fn has_number(found: &Found) -> bool
    ensures { result ≡ has_number found.now }
{
    matches!(&found.token, Token::Number(_))
}
