// Names, widths and joins. No clause says that memory is found.
use net_hier::{Join, Node};
use nl_base::{Boxed, BoxedList, InlineList, Int, Range, Seq, Text};
use std::alloc::Global;
use std::test::Fail;
use vlog_design::joins::push_joins;
use vlog_design::names::NameSet;
use vlog_design::runs::Runs;
use vlog_design::signals::{SignalAt, Slot};
use vlog_design::table::Table;
use vlog_design::uses::uses_in;
use vlog_design::widths::expr_width;
use vlog_values::{Assignment, Assigns, Expr, Header, ItemV, Module, Select};

fn reference(alloc: Global, name: &[u8]) -> Result<Expr, Fail> {
    let name = Text::copy(alloc, name)?;
    Ok(Expr::Ref {
        select: Select::All,
        name,
    })
}

/// The width of a port of two bits, repeated.
fn repeated_width(alloc: Global, count: Int) -> Result<u64, Fail> {
    let mut table = Table::empty(alloc);
    let range = Some(Range { left: 1, right: 0 });
    let place = SignalAt::AtPort(0);
    table.add(b"b".as_slice(), Slot { range, place })?;
    let mut parts = Seq::empty(alloc);
    parts.push(reference(alloc, b"b")?)?;
    let expr = Expr::Rep(count, Boxed::new(alloc, parts)?);
    Ok(expr_width(&table, &expr))
}

#[test]
fn widths(rt: HostRuntime) -> Result<(), Fail> {
    for (count, width) in [(0, 0), (2, 4), (i64::MAX, u64::MAX - 1)] {
        match Int::check(count) {
            None => assert!(rt; false),
            Some(count) => assert_eq!(rt; repeated_width(rt.alloc(), count)?, width),
        }
    }
    Ok(())
}

#[test]
fn names(rt: HostRuntime) -> Result<(), Fail> {
    let mut names = NameSet::empty(rt.alloc());
    assert!(rt; names.add(b"a".as_slice())?);
    assert!(rt; names.add(b"b".as_slice())?);
    assert!(rt; !names.add(b"a".as_slice())?);
    assert_eq!(rt; names.len(), 2);
    assert_eq!(rt; names.place(b"b"), Some(1));
    assert!(rt; !names.has(b"c"));
    Ok(())
}

/// A net, nothing and a net.
fn two_nets(alloc: Global) -> Result<Runs, Fail> {
    let mut bits = Runs::empty(alloc);
    bits.push_nodes(Node::Net(0), 1)?;
    bits.push_nothing(1)?;
    bits.push_nodes(Node::Net(2), 1)?;
    Ok(bits)
}

/// Two ones and nothing.
fn two_ones(alloc: Global) -> Result<Runs, Fail> {
    let mut bits = Runs::empty(alloc);
    bits.push_nodes(Node::One, 2)?;
    bits.push_nothing(1)?;
    Ok(bits)
}

#[test]
fn joins(rt: HostRuntime) -> Result<(), Fail> {
    let left = two_nets(rt.alloc())?;
    let right = two_ones(rt.alloc())?;
    let mut joins = Vec::new(rt.alloc());
    push_joins(&left, &right, &mut joins)?;
    let (a, b) = (Node::Net(0), Node::One);
    assert_eq!(rt; joins.len(), 1);
    assert!(rt; joins[0] == Join { a, b });
    Ok(())
}

/// How many names there are in the expressions of a module with one assignment.
fn names_of_assignment(alloc: Global) -> Result<usize, Fail> {
    let left = reference(alloc, b"y")?;
    let right = reference(alloc, b"a")?;
    let mut sets = Seq::empty(alloc);
    sets.push(Assignment { left, right })?;
    let attrs = BoxedList::empty();
    let mut items = Seq::empty(alloc);
    items.push(ItemV::Assign(Assigns { attrs, sets }))?;
    let m = Module {
        attrs: BoxedList::empty(),
        name: Text::copy(alloc, b"m")?,
        implicit: true,
        params: Seq::empty(alloc),
        header: Header::Names(InlineList::empty()),
        items,
    };
    let found = uses_in(alloc, &m)?;
    Ok(found.len())
}

#[test]
fn uses(rt: HostRuntime) -> Result<(), Fail> {
    assert_eq!(rt; names_of_assignment(rt.alloc())?, 2);
    Ok(())
}
