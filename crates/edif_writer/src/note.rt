ghost use Rattle.std.specs.Prelude.{map};
ghost use Rattle.edif_writer.specs.Forms.{note_form, tree_form, user_form};
ghost use Rattle.edif_writer.specs.Layout.{Group, between, blank_where, each, inline};
ghost use Rattle.nl_output.specs.Writing.{state, Puts};

use crate::forms::OnLine;
use crate::name::write_comment;
use edif_values::{Note, UserData, UserTree};
use nl_io::Sink;
use nl_output::Output;

/// A blank, where one is due.
fn put_blank<O: Sink>(due: bool, output: &mut Output, sink: &mut O)
    ensures { Puts (blank_where due)
        (state O.receipt sink.old output.old) (state O.receipt sink.new output.new) }
{
    if due {
        output.put(b" ", sink);
    }
}

/// Trees with blanks between them, and one before the first where it is due.
#[cycle(trees)]
fn write_trees<O: Sink>(trees: &[UserTree], blank: bool, output: &mut Output, sink: &mut O)
    ensures { Puts (between blank (each tree_form trees.now))
        (state O.receipt sink.old output.old) (state O.receipt sink.new output.new) }
{
    let mut due = blank;
    for tree in trees {
        put_blank(due, output, sink);
        write_tree(tree, output, sink);
        due = true;
    }
}

/// A list of trees.
#[cycle(trees)]
fn write_list<O: Sink>(trees: &[UserTree], output: &mut Output, sink: &mut O)
    ensures { Puts (inline (Group (each tree_form trees.now)))
        (state O.receipt sink.old output.old) (state O.receipt sink.new output.new) }
{
    output.put(b"(", sink);
    write_trees(trees, false, output, sink);
    output.put(b")", sink);
}

/// A tree.
#[cycle(trees)]
fn write_tree<O: Sink>(tree: &UserTree, output: &mut Output, sink: &mut O)
    ensures { Puts (inline (tree_form tree.now))
        (state O.receipt sink.old output.old) (state O.receipt sink.new output.new) }
{
    match tree {
        UserTree::Word(word) => word.write(output, sink),
        UserTree::Number(number) => number.write(output, sink),
        UserTree::Str(text) => text.write(output, sink),
        UserTree::List(trees) => write_list(trees.items(), output, sink),
    }
}

impl OnLine for UserData {
    ghost form = { user_form };

    fn write<O: Sink>(&self, output: &mut Output, sink: &mut O) {
        output.put(b"(userData ", sink);
        self.name.write(output, sink);
        write_trees(self.trees.items(), true, output, sink);
        output.put(b")", sink);
    }
}

impl OnLine for Note {
    ghost form = { note_form };

    fn write<O: Sink>(&self, output: &mut Output, sink: &mut O) {
        match self {
            Note::Comment(texts) => write_comment(texts, output, sink),
            Note::User(user) => user.write(output, sink),
        }
    }
}
