// The judge, a program of the tests: random graphs, queries and plans through the engine's operations,
// compared with a matcher that tries assignments (document 01, 'Agreement' and the cases that are not
// starred). It shares no code with the engine. It prints how often each kind of result was compared and
// how often it differed.
#![tactic(auto)]

mod compare;
mod counts;
mod others;
mod recorded;
mod runs;
mod stream;
mod worked;

use judge_inputs::random::Random;
use judge_matcher::tally::Tally;
use std::io;

const GRAPHS: usize = 1800;

const SEED: u64 = 88172645463325252;

fn main(rt: HostRuntime) -> io::Result<()> {
    let mut random = Random::new(SEED);
    let mut tally = Tally::new(&rt);
    println!(rt; "judge")?;
    worked::judge_cases(&mut random, &mut tally);
    stream::judge_graphs(GRAPHS, &mut random, &mut tally);
    tally.print()?;
    tally.written
}
