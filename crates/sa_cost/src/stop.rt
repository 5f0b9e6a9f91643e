ghost use Rattle.std.specs.Prelude.{◌≡◌};
ghost use Rattle.sa_cost.specs.Cost.{stopped, sum_of, product_of};

/// The cost at which every sum and product stops.
pub const GREATEST_COST: u128 = 1 << 120;

/// The sum of two costs.
pub fn add_cost(a: u128, b: u128) -> u128
    ensures { result ≡ sum_of a b }
{
    a.saturating_add(b).min(GREATEST_COST)
}

/// The product of two costs, or of a cost and a number of rows.
pub fn times_cost(a: u128, b: u128) -> u128
    ensures { result ≡ product_of a b }
{
    a.saturating_mul(b).min(GREATEST_COST)
}
