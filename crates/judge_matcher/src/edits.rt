// Apply changes over marked words, against Load of the edited graph's file.
use crate::lent::*;
use crate::slices::*;
use crate::stores::{judge_store, load_file};
use crate::tally::*;
use judge_inputs::graphs;
use judge_inputs::graphs::Graph;
use judge_inputs::random::Random;
use load::Loaded;

// Apply changes to an old store, to so many marked words.
fn apply(
    old: &[u32],
    file: &[u8],
    new: &mut Store,
    words: usize,
    tally: &mut Tally<impl Print>,
) -> Loaded {
    new.fill(MARK);
    let a = changes::apply_changes(old, file, first_mut(new, words));
    judge_store(a, new, words, tally);
    a
}

// What changes to a store are refused with.
fn judge_unfit(old: &[u32], file: &[u8], refusal: u32, tally: &mut Tally<impl Print>) {
    let mut new = [0u32; LIST_WORDS];
    let a = apply(old, file, &mut new, MAX_WORDS, tally);
    tally.judge(DAMAGED, a.refusal == refusal);
}

// Changes, with a byte more, a byte less, and to a store without its last word.
fn judge_damaged(old: &[u32], long: &[u8], tally: &mut Tally<impl Print>) {
    let bytes = long.len().wrapping_sub(1);
    judge_unfit(old, long, 27, tally);
    judge_unfit(old, first(long, bytes.wrapping_sub(1)), 27, tally);
    let short = first(old, old.len().wrapping_sub(1));
    judge_unfit(short, first(long, bytes), 19, tally);
}

// Changes to an old store make the one that the edited graph's file loads to; in a word less they are refused
// with 5. Answers its words.
fn judge_applied(
    h: &Graph,
    old: &[u32],
    file: &[u8],
    new: &mut Store,
    tally: &mut Tally<impl Print>,
) -> usize {
    let mut loaded = [0u32; LIST_WORDS];
    let words = graph_words(h);
    let a = load_file(h, &mut loaded, words, tally);
    let small = apply(old, file, new, words.wrapping_sub(1), tally);
    let b = apply(old, file, new, words, tally);
    let counts = a.vertices == b.vertices && a.edges == b.edges && b.refusal == 0;
    tally.judge(CHANGED, small.refusal == 5);
    tally.judge(CHANGED, counts && loaded == *new);
    words
}

// Changes to a graph, applied to its store; to the new store, which has them already, they are refused with
// 28.
fn judge_changed(
    g: &Graph,
    h: &Graph,
    old: &Store,
    new: &mut Store,
    tally: &mut Tally<impl Print>,
) {
    let mut edits = [0u8; graphs::FILE_BYTES];
    let size = h.write_changes(g, &mut edits);
    let long = first(&edits, size.wrapping_add(1));
    let exact = first(long, size);
    let again = if size == 3 { 0 } else { 28 };
    let used = first(old, graph_words(g));
    let words = judge_applied(h, used, exact, new, tally);
    judge_damaged(used, long, tally);
    judge_unfit(first(new, words), exact, again, tally);
}

// Changes of few or many of a graph's edges, and back. The numbers drawn here are none of the stream's.
pub fn random_changes(g: &Graph, old: &Store, stream: Random, tally: &mut Tally<impl Print>) {
    let mut own = stream;
    let mut h = *g;
    let mut new = [0u32; LIST_WORDS];
    let mut back = [0u32; LIST_WORDS];
    let percent = own.pick([0, 1, 1, 2, 5, 20, 50, 100]);
    h.turn_edges(percent, &mut own);
    judge_changed(g, &h, old, &mut new, tally);
    judge_changed(&h, g, &new, &mut back, tally);
}
