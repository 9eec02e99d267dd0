// What is counted here beside the kinds of the other judges, and how it is printed.
use judge_matcher::tally::*;
use std::io;

// Find compared with the two.
pub const FOUND: usize = 24;

// How often Find accepted, and how often it gave each refusal, from this word on. Load, which is tallied too,
// refuses nothing here.
const ACCEPTED: usize = 25;

const GIVEN: usize = 32;

pub fn count_given(refusal: u32, tally: &mut Tally<impl Print>) {
    if refusal == 0 {
        tally.count(ACCEPTED, 1);
    } else {
        tally.count(GIVEN + refusal as usize % 32, 1);
    }
}

fn print_words<const N: usize>(tally: &Tally<impl Print>, words: [usize; N]) -> io::Result<()> {
    for at in words {
        let count = tally.words[at % WORDS];
        print!(tally.out; " {count}")?;
    }
    println!(tally.out; "")
}

pub fn print_compared(tally: &Tally<impl Print>) -> io::Result<()> {
    println!(tally.out;
        "compared: Find with Draw plan and then Run, words untouched by Find and Load, scratch cleared, refused with zeros"
    )?;
    print_words(tally, [FOUND, UNTOUCHED, CLEARED, REFUSED])
}

pub fn print_answers(tally: &Tally<impl Print>) -> io::Result<()> {
    println!(tally.out; "accepted; refused with 19, 20, 21, 22 and 24")?;
    print_words(
        tally,
        [
            ACCEPTED,
            GIVEN + 19,
            GIVEN + 20,
            GIVEN + 21,
            GIVEN + 22,
            GIVEN + 24,
        ],
    )
}
