ghost use Rattle.std.specs.Prelude.{◌≡◌, option_map};
ghost use Rattle.sa_cond.specs.declared.expr.Expr.{out-Expr};
ghost use Rattle.sa_range.specs.Atom.{column_in as table_column, literal_in as literal_value};

use sa_cond::Expr;
use sa_value::Value;

/// The column of the table that an expression is.
pub(crate) fn column_in(table: u32, expr: &Expr) -> Option<u32>
    ensures { result ≡ table_column table (out-Expr expr.now) }
{
    match expr {
        Expr::Column {
            table: other,
            column,
        } => { if *other == table { Some(*column) } else { None } }
        _ => None,
    }
}

/// The literal that an expression is.
pub(crate) fn literal_in(expr: &Expr) -> Option<&Value>
    ensures { option_map (λ literal. literal.now) result ≡ literal_value (out-Expr expr.now) }
{
    match expr {
        Expr::Literal(value) => Some(value),
        _ => None,
    }
}
