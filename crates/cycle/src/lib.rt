// The node judge and the argument-row judge, which go over a question's tree in a cycle.
#![tactic(auto)]

pub mod cycle;
