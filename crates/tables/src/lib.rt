// Document 01 as definitions. The types below are the one dictionary of calls, answers, effects, places and records: definitions,
// contracts and code all go by them. specs/ holds the definitions, proofs/ their laws and the bench.
#![tactic(auto)]

pub mod call; // what is asked of a machine
pub mod answer; // what it answers and what it has done to the plain lists
pub mod place; // where a call stands
pub mod access; // a row of the access tables
pub mod state; // the record of a machine that is handed in and back
