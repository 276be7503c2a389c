// Overload resolution: `check_call_args` of sema/checker.rs.
#![tactic(auto)]

pub mod before;
pub mod calls;
pub mod classes;
pub mod reports;
