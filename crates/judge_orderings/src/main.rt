// The judge of All orderings: random graphs and queries, compared with a model that tries every list of
// vertices and searches for the rows of each. It shares no code with the engine. It prints how often each
// kind of result was compared and how often it differed.
#![tactic(auto)]

mod calls;
mod model;
mod searching;
mod stream;
mod tallied;

use judge_inputs::random::Random;
use judge_matcher::tally::Tally;
use std::io;

const GRAPHS: usize = 400;

const SEED: u64 = 88172645463325252;

fn main(rt: HostRuntime) -> io::Result<()> {
    let mut random = Random::new(SEED);
    let mut tally = Tally::new(&rt);
    println!(rt; "judge_orderings")?;
    stream::judge_graphs(GRAPHS, &mut random, &mut tally);
    tallied::print(&tally)?;
    tally.written
}
