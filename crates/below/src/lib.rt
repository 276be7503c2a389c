// The classes above a class (orders 2 and 6).
#![tactic(auto)]

pub mod above;
pub mod marks;
pub mod parents;
