// The symbol table (sema/symbol.rs): its check, its lookups, the climb along superclasses.
#![tactic(auto)]

pub mod checks;
pub mod functions;
pub mod lookups;
pub mod names;
pub mod subclass;
pub mod visibility;
