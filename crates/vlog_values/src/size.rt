// The size of a file.
ghost use Rattle.std.specs.Prelude.{◌≡◌, ◌-◌, ◌^◌, ℕ, min};
ghost use Rattle.vlog_values.specs.Sizes.{list_size, expr_size, maybe_size, port_size, param_size, conn_size, conns_size, instance_size, instances_size, assignment_size, assigns_size, item_size, header_size, module_size, vlog_size};

use crate::declaration::{ParamDecl, PortDecl};
use crate::expression::Expr;
use crate::module::{Header, ItemV, Module, VlogFile};
use crate::statement::{Assignment, Assigns, Conns, Instances, NamedConn, VInst};

/// The number of items in all lists of a file at every depth, or 2^64-1 where it is larger. The bytes of a text are no items.
#[tactic(auto, unfolding(crate::specs::Sizes::vlog_size))]
pub fn vlog_size(file: &VlogFile) -> u64
    ensures { result ≡ min (2 ^ 64 - 1) (vlog_size file.now) }
{
    count_list(file.modules.items())
}

/// A value whose lists are counted.
trait HasLists {
    /// How many items its lists have at every depth.
    ghost held: { Self → ℕ };

    /// Answers that number, or 2^64-1 where it is larger.
    fn count(&self) -> u64
        ensures { result ≡ min (2 ^ 64 - 1) (held self.now) };
}

/// Counts the items of a list, and those in the lists of its items.
fn count_list<T: HasLists>(items: &[T]) -> u64
    ensures { result ≡ min (2 ^ 64 - 1) (list_size T.held items.now) }
{
    let mut count: u64 = 0;
    for item in items {
        count = count.saturating_add(item.count());
    }
    count.saturating_add(items.len() as u64)
}

/// Counts the expressions of a list, and those in their braces.
#[cycle(braces)]
fn count_exprs(exprs: &[Expr]) -> u64
    ensures { result ≡ min (2 ^ 64 - 1) (list_size expr_size exprs.now) }
{
    let mut count: u64 = 0;
    for expr in exprs {
        count = count.saturating_add(count_expr(expr));
    }
    count.saturating_add(exprs.len() as u64)
}

/// Counts the expressions in the braces of an expression.
#[cycle(braces)]
#[tactic(auto, using(crate::proofs::Sizes::expr_sizes))]
fn count_expr(expr: &Expr) -> u64
    ensures { result ≡ min (2 ^ 64 - 1) (expr_size expr.now) }
{
    match expr {
        Expr::Cat(exprs) => count_exprs(exprs.items()),
        Expr::Rep(_, exprs) => count_exprs(exprs.get().items()),
        Expr::Ref { .. } | Expr::Lit(_) | Expr::LooseNumber(_) | Expr::Loose(_) => 0,
    }
}

impl HasLists for Option<Expr> {
    ghost held = { maybe_size };

    fn count(&self) -> u64 {
        match self {
            Some(expr) => count_expr(expr),
            None => 0,
        }
    }
}

impl HasLists for PortDecl {
    ghost held = { port_size };

    fn count(&self) -> u64 {
        (self.attrs.len() as u64).saturating_add(self.names.len() as u64)
    }
}

impl HasLists for ParamDecl {
    ghost held = { param_size };

    fn count(&self) -> u64 {
        (self.attrs.len() as u64).saturating_add(self.sets.len() as u64)
    }
}

impl HasLists for NamedConn {
    ghost held = { conn_size };

    fn count(&self) -> u64 {
        self.value.count()
    }
}

impl HasLists for Conns {
    ghost held = { conns_size };

    fn count(&self) -> u64 {
        match self {
            Conns::Named(conns) => count_list(conns.items()),
            Conns::Order(exprs) => count_list(exprs.items()),
        }
    }
}

impl HasLists for VInst {
    ghost held = { instance_size };

    fn count(&self) -> u64 {
        self.conns.count()
    }
}

impl HasLists for Instances {
    ghost held = { instances_size };

    fn count(&self) -> u64 {
        count_list(self.insts.items())
            .saturating_add(self.params.len() as u64)
            .saturating_add(self.attrs.len() as u64)
    }
}

impl HasLists for Assignment {
    ghost held = { assignment_size };

    fn count(&self) -> u64 {
        count_expr(&self.left).saturating_add(count_expr(&self.right))
    }
}

impl HasLists for Assigns {
    ghost held = { assigns_size };

    fn count(&self) -> u64 {
        count_list(self.sets.items()).saturating_add(self.attrs.len() as u64)
    }
}

impl HasLists for ItemV {
    ghost held = { item_size };

    fn count(&self) -> u64 {
        match self {
            ItemV::Port(decl) => decl.count(),
            ItemV::Net(decl) => {
                (decl.attrs.len() as u64).saturating_add(decl.names.len() as u64)
            }
            ItemV::Param(decl) => decl.count(),
            ItemV::Assign(assigns) => assigns.count(),
            ItemV::Instances(instances) => instances.count(),
            ItemV::Defparam(defparams) => {
                (defparams.attrs.len() as u64).saturating_add(defparams.sets.len() as u64)
            }
        }
    }
}

impl HasLists for Header {
    ghost held = { header_size };

    fn count(&self) -> u64 {
        match self {
            Header::Names(names) => names.len() as u64,
            Header::Decls(decls) => count_list(decls.items()),
        }
    }
}

impl HasLists for Module {
    ghost held = { module_size };

    fn count(&self) -> u64 {
        count_list(self.params.items())
            .saturating_add(count_list(self.items.items()))
            .saturating_add(self.header.count())
            .saturating_add(self.attrs.len() as u64)
    }
}
