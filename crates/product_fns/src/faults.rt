//! Why an outer product is refused.

ghost use Rattle.std.specs.Prelude.{◌≡◌};
ghost use Rattle.product_fns.specs.declared.faults.OuterFault.TheVariants as outer_fault;

use apl_base::{NoMemory, TooLarge};

/// Why there is no outer product.
#[derive(Clone, Copy, Debug, PartialEq, Eq)]
pub enum OuterFault {
    /// The joined lengths make no shape.
    Limit,
    NoMemory,
}

impl From<NoMemory> for OuterFault {
    ghost from_gives = { λ _ fault. fault ≡ outer_fault.NoMemory };

    /// The same cause, with its numbers.
    fn from(_fault: NoMemory) -> OuterFault {
        OuterFault::NoMemory
    }
}

impl From<TooLarge> for OuterFault {
    ghost from_gives = { λ _ fault. fault ≡ outer_fault.Limit };

    /// The same cause, with its numbers.
    fn from(_fault: TooLarge) -> OuterFault {
        OuterFault::Limit
    }
}
