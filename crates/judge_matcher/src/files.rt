// The files of a query and a plan in one array.
use crate::lent::*;
use judge_inputs::plans;
use judge_inputs::queries::Query;
use judge_inputs::random::Random;

// Writes a random plan; answers its bytes.
pub fn write_plan(q: &Query, files: &mut Files, random: &mut Random) -> usize {
    plans::write_random(q, &mut files[PLAN..], random)
}

// The number of operators that the plan's file begins with, in 5 bits.
pub fn operators(files: &Files) -> usize {
    (files[PLAN] / 8) as usize
}
