//! What is true of sums and products of costs. Each law is a function that does nothing: its contract
//! states the law. Comparing the orders in which tables are read rests on them.

ghost use Rattle.std.specs.Prelude.{◌≡◌, ◌≤◌, ◌^◌, ℕ};
ghost use Rattle.sa_cost.specs.Cost.{stopped, sum_of, product_of};
ghost use Rattle.sa_cost.specs.Law.{TakesAnyOrder, KeepsOrder, StopsOnce, Distributes};

/// A sum is the same in any order of its costs.
pub fn adding_takes_any_order()
    ensures { TakesAnyOrder sum_of }
{}

/// A product is the same in any order of its costs.
pub fn multiplying_takes_any_order()
    ensures { TakesAnyOrder product_of }
{}

/// Greater costs don't add up to less.
pub fn adding_keeps_the_order()
    ensures { KeepsOrder sum_of }
{}

/// Greater costs have no lesser product.
pub fn multiplying_keeps_the_order()
    ensures { KeepsOrder product_of }
{}

/// A cost that was stopped before gives the same sum and the same product, and is stopped no more.
pub fn stopping_early_is_stopping_once()
    ensures again { (a : ℕ) → stopped (stopped a) ≡ stopped a }
    ensures sum { StopsOnce sum_of }
    ensures product { StopsOnce product_of }
{}

/// A product with a sum is the sum of the products.
pub fn multiplying_is_adding()
    ensures { Distributes }
{}

/// No sum and no product is greater than the greatest cost, and neither is less than a cost in it, up
/// to that; a product has no factor 0.
pub fn greatest_cost_stays()
    ensures sum_stops { (a b : ℕ) → sum_of a b ≤ 2 ^ 120 }
    ensures product_stops { (a b : ℕ) → product_of a b ≤ 2 ^ 120 }
    ensures sum_rises { (a b : ℕ) → stopped a ≤ sum_of a b }
    ensures product_rises { (a b : ℕ) → 1 ≤ b → stopped a ≤ product_of a b }
{}
