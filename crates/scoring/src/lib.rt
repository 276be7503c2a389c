// How well an overload takes a call's arguments (checker.rs): its number of parameters, which parameter each argument gets, the named and the
// positional pass.
#![tactic(auto)]

pub mod args;
pub mod arity;
pub mod parameter;
pub mod score;
