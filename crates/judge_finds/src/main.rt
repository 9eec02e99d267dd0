// The judge of Find: random graphs and queries, over which Find is to do as Draw plan does and then Run on
// what it drew. It prints how often each kind of result was compared, and a line for each that differs.
#![tactic(auto)]

mod finds;
mod stream;
mod tallied;

use judge_inputs::random::Random;
use judge_matcher::tally::Tally;
use std::io;

const GRAPHS: usize = 600;

const SEED: u64 = 88172645463325252;

fn main(rt: HostRuntime) -> io::Result<()> {
    let mut random = Random::new(SEED);
    let mut tally = Tally::new(&rt);
    println!(rt; "judge_finds")?;
    stream::judge_graphs(GRAPHS, &mut random, &mut tally);
    tallied::print_compared(&tally)?;
    tallied::print_answers(&tally)?;
    tally.written
}
