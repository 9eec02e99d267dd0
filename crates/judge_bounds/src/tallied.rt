// What is counted, as words of the tally, and printed at the end.
use judge_matcher::tally::*;
use std::io;

// The kinds of results: bounds against the model, over another store, and which refusal comes first.
pub const BOUNDS: usize = 0;

pub const OTHERS: usize = 1;

pub const ORDER: usize = 2;

// How many list words, scratch words, costs and largest rows were too large for 64 bits; and the plans of
// wide graphs.
pub const PASSED: usize = 16;

pub const WIDE: usize = 20;

pub fn print(tally: &Tally<impl Print>) -> io::Result<()> {
    tally.print_counts(
        b"compared: bounds against the model, over other edges of labels that the query does not name, refusals in order\n",
        BOUNDS,
        ORDER + 1,
    )?;
    tally.print_counts(b"compared: refused with zeros\n", REFUSED, REFUSED + 1)?;
    tally.print_counts(b"differed in all\n", DIFFERED, DIFFERED + 1)?;
    tally.print_counts(b"graphs, queries\n", GRAPHS, QUERIES + 1)?;
    tally.print_counts(
        b"list words, scratch words, costs and largest rows too large for 64 bits, of plans over dense graphs\n",
        PASSED,
        WIDE + 1,
    )
}
