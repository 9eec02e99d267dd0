// How often each kind of result was compared, how often all of them differed, and what the stream had.
use std::io;

// The counts, and what a result that differs is printed to. `written` is the first of those writes that
// failed.
#[derive(Drop)]
pub struct Tally<P: Print> {
    pub words: [u64; WORDS],
    pub out: P,
    pub written: io::Result<()>,
}

pub const WORDS: usize = 72;

// The kinds of results.
pub const WORKED: usize = 0;

pub const READ: usize = 1;

pub const MATCHED: usize = 2;

pub const PAIRS: usize = 3;

pub const CACHE: usize = 4;

pub const SCRATCH: usize = 5;

pub const LIST: usize = 6;

pub const UNTOUCHED: usize = 7;

pub const CLEARED: usize = 8;

pub const REFUSED: usize = 9;

pub const DAMAGED: usize = 10;

pub const RECORDS: usize = 11;

pub const CHANGED: usize = 12;

// How many results differed.
pub const DIFFERED: usize = 13;

// What the stream had.
pub const GRAPHS: usize = 14;

pub const QUERIES: usize = 15;

pub const DATED: usize = 16;

pub const PAIRED: usize = 17;

pub const UNLIKE: usize = 18;

pub const FILLED: usize = 19;

pub const JOINED: usize = 20;

pub const SAVED: usize = 21;

pub const ROWS: usize = 22;

// A kind of results beside those above: over another store.
pub const OTHERS: usize = 23;

// How often the engine gave each refusal, from this word on.
pub const REFUSALS: usize = 32;

impl<P: Print> Tally<P> {
    // Nothing is counted yet.
    pub fn new(out: P) -> Self {
        Tally {
            words: [0; WORDS],
            out,
            written: Ok(()),
        }
    }

    // Counts so many more of something.
    pub fn count(&mut self, at: usize, more: u64) {
        self.words[at % WORDS] = self.words[at % WORDS].wrapping_add(more);
    }

    // Counts a comparison of a kind, and prints the query's number and the kind's where it differed.
    pub fn judge(&mut self, kind: usize, same: bool) {
        self.count(kind, 1);
        if !same {
            self.count(DIFFERED, 1);
            let query = self.words[QUERIES];
            let printed = println!(self.out; "differs: query {query} kind {kind}");
            if self.written.is_ok() {
                self.written = printed;
            }
        }
    }

    // Counts an answer's refusal. Refused, its other numbers are to be zeros.
    pub fn judge_refusal(&mut self, refusal: u32, zeros: bool) {
        self.count(REFUSALS + refusal as usize % 40, 1);
        self.judge(REFUSED, refusal == 0 || zeros);
    }

    // Prints what some words of the tally count, and under it those words.
    pub fn print_counts(&self, names: &[u8], from: usize, to: usize) -> io::Result<()> {
        self.out.write_all(names)?;
        for count in self.words.iter().take(to).skip(from) {
            print!(self.out; " {count}")?;
        }
        println!(self.out; "")
    }

    pub fn print(&self) -> io::Result<()> {
        self.print_counts(
            b"compared: worked cases, graphs and queries read, rows against the matcher, two plans of a query, cache on against off\n",
            WORKED,
            SCRATCH,
        )?;
        self.print_counts(
            b"compared: scratch lengths around the need, list of its rows and a word short, words and records untouched, scratch cleared\n",
            SCRATCH,
            REFUSED,
        )?;
        self.print_counts(
            b"compared: refused with zeros, damaged graph and change files, records that add up and one short, changes against loading and back\n",
            REFUSED,
            DIFFERED,
        )?;
        self.print_counts(
            b"compared: runs and drawn plans over other edges of labels that the query does not name\n",
            OTHERS,
            OTHERS + 1,
        )?;
        self.print_counts(b"differed in all\n", DIFFERED, GRAPHS)?;
        self.print_counts(
            b"graphs, queries, those with matches and a range of days, with matches and pairs, pairs of unlike plans\n",
            GRAPHS,
            FILLED,
        )?;
        self.print_counts(
            b"plans with rows, with joined rows, where the cache saved, rows\n",
            FILLED,
            ROWS + 1,
        )?;
        self.print_counts(b"refused with 1 to 30\n", REFUSALS + 1, REFUSALS + 31)
    }
}
