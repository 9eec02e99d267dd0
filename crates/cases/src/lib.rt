// The worked cases of document 01, 'Hangs worked by hand', and bounds worked by hand for request 11 of
// document 02: the tables are in `specs/`, their theorems in `proofs/`. No code; the cases that are not
// starred are run by `judge`.
#![tactic(auto)]
