// The index of a table: hash-indexed digital search trees for records with keys, hashed lists for functions.
#![tactic(auto)]

pub mod ahead;
pub mod index;
pub mod list;
pub mod table;
pub mod tree;
