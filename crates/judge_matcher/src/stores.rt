// Load over marked words, with what it leaves there judged.
use crate::lent::*;
use crate::slices::*;
use crate::tally::*;
use judge_inputs::bits::flip;
use judge_inputs::graphs;
use judge_inputs::graphs::Graph;
use judge_inputs::random::Random;
use load::Loaded;

// What Load or Apply changes leaves of so many marked words: it touches none past the used ones, and none at
// all where it is refused.
pub fn judge_store(a: Loaded, store: &Store, words: usize, tally: &mut Tally<impl Print>) {
    let used = if a.refusal == 0 {
        store_words(a.vertices, a.edges)
    } else {
        0
    };
    tally.judge(UNTOUCHED, is_marked(store, used, words));
    tally.judge_refusal(a.refusal, a.vertices == 0 && a.edges == 0);
}

// Load of a file to so many marked words.
fn load(file: &[u8], store: &mut Store, words: usize, tally: &mut Tally<impl Print>) -> Loaded {
    store.fill(MARK);
    let a = load::load(file, first_mut(store, words));
    judge_store(a, store, words, tally);
    a
}

// What Load of a file's first bytes is refused with.
fn load_refusal(file: &[u8], bytes: usize, words: usize, tally: &mut Tally<impl Print>) -> u32 {
    let mut store = [0u32; LIST_WORDS];
    load(first(file, bytes), &mut store, words, tally).refusal
}

// Load of a graph file a byte short, a byte long and with a bit turned over.
fn judge_damaged(g: &Graph, words: usize, random: &mut Random, tally: &mut Tally<impl Print>) {
    let mut file = [0u8; graphs::FILE_BYTES];
    let bytes = g.write(&mut file);
    let short = load_refusal(&file, bytes.wrapping_sub(1), words, tally);
    tally.judge(DAMAGED, short == 1);
    let long = load_refusal(&file, bytes.wrapping_add(1), words, tally);
    tally.judge(DAMAGED, long == 2);
    flip(&mut file, random.below(bytes % 65536 * 8), 1);
    let flipped = load_refusal(&file, bytes, words, tally);
    tally.judge(DAMAGED, flipped < 6);
}

// Load of a graph's file to so many words.
pub fn load_file(
    g: &Graph,
    store: &mut Store,
    words: usize,
    tally: &mut Tally<impl Print>,
) -> Loaded {
    let mut file = [0u8; graphs::FILE_BYTES];
    let bytes = g.write(&mut file);
    load(first(&file, bytes), store, words, tally)
}

// It answers the graph's counts.
fn judge_loaded(g: &Graph, store: &mut Store, words: usize, tally: &mut Tally<impl Print>) {
    let a = load_file(g, store, words, tally);
    let counts = a.vertices == g.vertices && a.edges == g.edges;
    tally.judge(READ, a.refusal == 0 && counts);
}

// Loads a graph to a store that is a word too small, a few words too large and just right; answers its words.
pub fn load_graph(
    g: &Graph,
    store: &mut Store,
    random: &mut Random,
    tally: &mut Tally<impl Print>,
) -> usize {
    let words = graph_words(g);
    judge_damaged(g, words, random, tally);
    let small = load_file(g, store, words.wrapping_sub(1), tally);
    tally.judge(READ, small.refusal == 5);
    judge_loaded(g, store, words.wrapping_add(5), tally);
    judge_loaded(g, store, words, tally);
    words
}
