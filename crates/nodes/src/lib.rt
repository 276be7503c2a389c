// What the judge does at each kind of node: how far a judgement is, leaves, operators and members, calls.
#![tactic(auto)]

pub mod calls;
pub mod progress;
pub mod rule;
