// The typing rules that a node's type comes by: assignability (sema/ty.rs), access, operators and members (sema/checker.rs).
#![tactic(auto)]

pub mod accept;
pub mod access;
pub mod member;
