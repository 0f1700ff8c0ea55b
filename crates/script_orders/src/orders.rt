//! Numbers of orders.
ghost use Rattle.std.specs.Prelude.{◌≡◌, ◌+◌, ◌-◌, ◌^◌, ◌<◌, min};

/// A number of orders. It stops at 2^128 - 1, the greatest number of 128 bits.
#[derive(Clone, Copy, Debug, PartialEq, Eq)]
pub struct Orders {
    /// The number.
    pub count: u128,
    ghost fits: { count < 2 ^ 128 },
}

impl Orders {
    /// One order.
    pub const ONE: Orders = Orders { count: 1 };

    /// None.
    pub const NONE: Orders = Orders { count: 0 };

    /// These and those: their sum, or 2^128 - 1 if it is greater.
    pub fn plus(self, other: Orders) -> Orders
        ensures { result.count ≡ min (self.count + other.count) (2 ^ 128 - 1) }
    {
        Orders {
            count: self.count.saturating_add(other.count),
        }
    }
}
