//! The machine's steps whose operands are leaves: functions of whole arrays that are made at once, and products.
#![tactic(auto)]

mod axes;
mod laws;
mod ones;
mod products;
mod puts;
mod takes;
mod twos;

pub use axes::counted_from_one;
pub use laws::origin_laws;
pub use ones::made_one;
pub use products::{inner_product, outer_product, reduction};
pub use puts::put_made;
pub use takes::{Arguments, take_one, take_safe, take_two};
pub use twos::made_two;
