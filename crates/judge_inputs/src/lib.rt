// What the judge hands to the engine: random graphs, queries and plans, and their packed files (document
// 01, 'Agreement': a program runs the others against a brute-force matcher). What comes back is judged
// elsewhere, `judge_matcher` and `judge`. Every function is total: sums wrap, an index is taken within its
// array, and a bit outside a file is written nowhere; so none asks anything of its caller.
#![tactic(auto)]

pub mod bits;
pub mod graphs;
pub mod plans;
pub mod queries;
pub mod random;
