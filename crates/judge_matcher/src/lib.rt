// What the engine is held to: the brute-force matcher of document 01's 'Agreement', marked words, and what
// Load and Apply changes leave; and the tally of what was compared. Inputs are made by `judge_inputs`; the
// runs are `judge`'s.
#![tactic(auto)]

pub mod edits;
pub mod files;
pub mod lent;
pub mod matcher;
pub mod slices;
pub mod stores;
pub mod tally;
pub mod ticks;
