// One record of a table: its front, the walk over records, the spellings of the built-in names.
#![tactic(auto)]

pub mod front;
pub mod params;
pub mod spelling;
pub mod walk;
