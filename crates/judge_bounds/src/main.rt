// The judge of Bounds: random graphs, queries and plans, compared with a model that follows the rules over
// the drawn edges in numbers of 256 bits. It shares no code with the engine. It prints how often each kind of
// result was compared and how often it differed.
#![tactic(auto)]

mod calls;
mod model;
mod numbers;
mod stream;
mod tallied;

use judge_inputs::random::Random;
use judge_matcher::tally::Tally;
use std::io;

const GRAPHS: usize = 1200;

const DENSE: usize = 60;

const SEED: u64 = 88172645463325252;

fn main(rt: HostRuntime) -> io::Result<()> {
    let mut random = Random::new(SEED);
    let mut tally = Tally::new(&rt);
    println!(rt; "judge_bounds")?;
    stream::judge_graphs(GRAPHS, &mut random, &mut tally);
    stream::judge_dense(DENSE, &mut random, &mut tally);
    tallied::print(&tally)?;
    tally.written
}
