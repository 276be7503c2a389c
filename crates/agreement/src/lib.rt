// What two tables have in common, and when a question has the same answer under both, as theorems. There is no code here.
#![tactic(auto)]
