//! What is true of every tree, whatever rows it stands over. Each law is a function that does nothing: its
//! contract states the law, which its proof shows once and for all.

ghost use Rattle.std.specs.Prelude.{◌≡◌, Some, All};
ghost use Rattle.sa_cond.specs.declared.cond.Cond.{Cond as condition};
ghost use Rattle.sa_cond.specs.declared.expr.Expr.{Expr as expression};
ghost use Rattle.sa_cond.specs.Choice.{Choice};
ghost use Rattle.sa_cond.specs.Cited.{MeetsName, cond_names, expr_names};
ghost use Rattle.sa_cond.specs.Condition.{holds};
ghost use Rattle.sa_cond.specs.Expression.{expr_value};
ghost use Rattle.sa_cond.specs.Interval.{CellKinds, Interval, static_interval};
ghost use Rattle.sa_cond.specs.Within.{IsNullOrIn};
ghost use Rattle.sa_cond.specs.Agree.{AgreeAt};

/// Where the cells that it names meet their kinds, an expression that has a static interval is NULL or a
/// number of it.
pub fn interval_holds_values()
    ensures { (kinds : CellKinds) (choice : Choice) (expr : expression) (interval : Interval) →
        All (MeetsName kinds choice) (expr_names expr) → static_interval kinds expr ≡ Some interval →
        IsNullOrIn interval (expr_value choice expr) }
{}

/// The columns and slots that an expression names decide its value.
pub fn names_decide_value()
    ensures { (one other : Choice) (expr : expression) → All (AgreeAt one other) (expr_names expr) →
        expr_value one expr ≡ expr_value other expr }
{}

/// The columns and slots that a condition names decide its truth.
pub fn names_decide_truth()
    ensures { (one other : Choice) (cond : condition) → All (AgreeAt one other) (cond_names cond) →
        holds one cond ≡ holds other cond }
{}
