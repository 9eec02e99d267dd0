// The judge of refusal 19: stores of random graphs, right and damaged, of few labels and many, few vertices
// and many, compared with a model that makes each store's backward side anew. It shares no code with the
// engine. It prints how often each kind of store was compared and how often the answers differed.
#![tactic(auto)]

mod damage;
mod layout;
mod make;
mod model;
mod stream;

use crate::stream::*;
use judge_inputs::random::Random;
use judge_matcher::tally;
use judge_matcher::tally::Tally;
use std::io;

const SEED: u64 = 88172645463325252;

fn print(tally: &Tally<impl Print>) -> io::Result<()> {
    tally.print_counts(
        b"stores of up to 40 vertices: right, damaged and accepted, refused\n",
        SMALL,
        SMALL + 3,
    )?;
    tally.print_counts(
        b"stores of 300 to 2,000 vertices, of 1 to 255 labels: right, damaged and accepted, refused\n",
        MIDDLE,
        MIDDLE + 3,
    )?;
    tally.print_counts(
        b"stores of 8,192 and 8,193 vertices: right, damaged and accepted, refused\n",
        LARGE,
        LARGE + 3,
    )?;
    tally.print_counts(
        b"stores with lists of more than 65,535 entries: right, damaged and accepted, refused\n",
        LONG,
        LONG + 3,
    )?;
    tally.print_counts(b"differed in all\n", tally::DIFFERED, tally::DIFFERED + 1)
}

fn main(rt: HostRuntime) -> io::Result<()> {
    let mut random = Random::new(SEED);
    let mut tally = Tally::new(&rt);
    println!(rt; "judge_stores")?;
    judge_small(&mut random, &mut tally);
    judge_middle(&mut random, &mut tally);
    judge_large(&mut random, &mut tally);
    judge_long(&mut random, &mut tally);
    print(&tally)?;
    tally.written
}
