// What is counted, as words of the tally, and printed at the end.
use judge_matcher::tally::{
    CLEARED, DIFFERED, GRAPHS, QUERIES, REFUSALS, REFUSED, Tally, UNTOUCHED,
};
use std::io;

// The kinds of results: lists against the model, lists too short, scratches below the need, over another
// store, and which refusal comes first.
pub const LISTED: usize = 0;

pub const SHORT: usize = 1;

pub const SCRATCH: usize = 2;

pub const OTHERS: usize = 3;

pub const ORDER: usize = 4;

// Queries of more than five vertices, those whose orderings were listed, and these.
pub const LARGE: usize = 16;

pub const SMALL: usize = 17;

pub const ORDERINGS: usize = 18;

pub fn print(tally: &Tally<impl Print>) -> io::Result<()> {
    tally.print_counts(
        b"compared: lists against the model, lists too short, scratches below the need, over other edges of labels that the query does not name, refusals in order\n",
        LISTED,
        ORDER + 1,
    )?;
    tally.print_counts(
        b"compared: words untouched, scratch cleared, refused with zeros\n",
        UNTOUCHED,
        REFUSED + 1,
    )?;
    tally.print_counts(b"differed in all\n", DIFFERED, DIFFERED + 1)?;
    tally.print_counts(b"graphs, queries\n", GRAPHS, QUERIES + 1)?;
    tally.print_counts(
        b"queries of more than five vertices, those whose orderings were listed, orderings\n",
        LARGE,
        ORDERINGS + 1,
    )?;
    tally.print_counts(
        b"refused with 19, 20, 31, 32\n",
        REFUSALS + 19,
        REFUSALS + 21,
    )?;
    tally.print_counts(b"", REFUSALS + 31, REFUSALS + 33)
}
