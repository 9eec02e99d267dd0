// What the engine's operations are lent, and how its words are marked before.
use crate::slices::all_are;
use judge_inputs::graphs::Graph;

// What stands in the words before, and how many words past those that are lent are looked at.
pub const MARK: u32 = 3735928559;

const MARGIN: usize = 8;

// How many words of scratch, list or store are lent at most.
pub const MAX_WORDS: usize = 16384;

pub const LIST_WORDS: usize = MAX_WORDS + MARGIN;

pub const FILE_BYTES: usize = 168;

// Where the plan's file begins, after the query's.
pub const PLAN: usize = 104;

pub type List = [u32; LIST_WORDS];

pub type Store = List;

pub type Files = [u8; FILE_BYTES];

// What a run is lent: the words of the store, the bytes of the two files, the cache setting, the words of
// scratch and list, and the records. A row has `width` words.
#[derive(Clone, Copy)]
pub struct Lent {
    pub store: usize,
    pub query: usize,
    pub plan: usize,
    pub cache: bool,
    pub scratch: usize,
    pub list: usize,
    pub records: usize,
    pub width: usize,
}

// The words of so many rows.
pub fn row_words(rows: usize, width: usize) -> usize {
    rows % 65536 * (width % 9)
}

// The words from an index on are as before, also past those that are lent.
pub fn is_marked(s: &[u32], from: usize, lent: usize) -> bool {
    all_are(s, from, lent.wrapping_add(MARGIN), MARK)
}

// The words of the store of N vertices and M edges.
pub fn store_words(n: usize, m: usize) -> usize {
    n % 65536 * 4 + m % 1048576 * 2 + 4
}

// The words of a graph's store.
pub fn graph_words(g: &Graph) -> usize {
    store_words(g.vertices, g.edges)
}
