// The unsized literals and the names in expressions.
ghost use Rattle.std.specs.Prelude.{◌≡◌, flat_map, map, option_copied};
ghost use Rattle.std.specs.List.{list_any};
ghost use Rattle.vlog_design.specs.Exprs.{has_loose};
ghost use Rattle.vlog_design.specs.Names.{uses};
ghost use Rattle.vlog_design.specs.Rules.{first_of};

use vlog_values::Expr;

/// Whether an unsized literal stands in the expression.
#[cycle(loose)]
pub fn has_loose(expr: &Expr) -> bool
    ensures { result ≡ has_loose expr.now }
{
    match expr {
        Expr::Ref { .. } => false,
        Expr::Lit(_) => false,
        Expr::LooseNumber(_) => true,
        Expr::Loose(_) => true,
        Expr::Cat(parts) => any_loose(parts.items()),
        Expr::Rep(_, parts) => any_loose(parts.get().items()),
    }
}

#[cycle(loose)]
fn any_loose(parts: &[Expr]) -> bool
    ensures { result ≡ list_any has_loose parts.now }
{
    for part in parts {
        if has_loose(part) {
            return true;
        }
    }
    false
}

/// The first name in an expression.
#[cycle(first)]
pub fn first_use(expr: &Expr) -> Option<&[u8]>
    ensures { option_copied result ≡ first_of (map (λ u. u.name) (uses expr.now)) }
{
    match expr {
        Expr::Ref { name, .. } => Some(name.bytes()),
        Expr::Lit(_) => None,
        Expr::LooseNumber(_) => None,
        Expr::Loose(_) => None,
        Expr::Cat(parts) => first_use_in(parts.items()),
        Expr::Rep(_, parts) => first_use_in(parts.get().items()),
    }
}

#[cycle(first)]
fn first_use_in(parts: &[Expr]) -> Option<&[u8]>
    ensures { option_copied result ≡ first_of (map (λ u. u.name) (flat_map uses parts.now)) }
{
    for part in parts {
        if let Some(name) = first_use(part) {
            return Some(name);
        }
    }
    None
}
