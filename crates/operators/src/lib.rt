// The operators (ty.rs, checker.rs): assignability, operator methods, binary and unary nodes; what a rule answers.
#![tactic(auto)]

pub mod assign;
pub mod binary;
pub mod method;
pub mod operand;
pub mod ruled;
pub mod unary;
