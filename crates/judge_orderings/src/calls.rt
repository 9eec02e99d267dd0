// All orderings over marked words, with what it leaves there judged: against the model, in words and scratch
// of many lengths, refused, and over another store.
use crate::model::Spectrum;
use crate::tallied::*;
use judge_inputs::random::Random;
use judge_matcher::lent::{Files, MARK, Store, is_marked};
use judge_matcher::slices::*;
use judge_matcher::tally::{CLEARED, Tally, UNTOUCHED};
use plan_spectrum::OrderingsAnswer;

const MAX_WORDS: usize = 896;

const MAX_SCRATCH: usize = 256;

type Words = [u32; MAX_WORDS];

// The words of the store, the bytes of the query, and the words of scratch and list that are lent.
#[derive(Clone, Copy)]
pub struct Lent {
    pub store: usize,
    pub query: usize,
    pub scratch: usize,
    pub words: usize,
}

// The one call of All orderings.
fn call(
    store: &[u32],
    files: &[u8],
    w: Lent,
    scratch: &mut [u32],
    words: &mut [u32],
) -> OrderingsAnswer {
    let used = first(store, w.store);
    let query = first(files, w.query);
    let work = first_mut(scratch, w.scratch);
    plan_spectrum::orderings(used, query, work, first_mut(words, w.words))
}

// A call over marked words. It clears the scratch, and touches nothing past what it is lent; refused, no word
// of the list, else none past so many.
fn orderings(
    store: &Store,
    files: &Files,
    w: Lent,
    made: usize,
    words: &mut Words,
    tally: &mut Tally<impl Print>,
) -> OrderingsAnswer {
    let mut scratch = [MARK; MAX_SCRATCH];
    let a = call(store, files, w, &mut scratch, words);
    let from = if a.refusal == 0 { made } else { 0 };
    let untouched = is_marked(&scratch, w.scratch, w.scratch) && is_marked(words, from, w.words);
    tally.judge(CLEARED, all_are(&scratch, 0, w.scratch, 0));
    tally.judge(UNTOUCHED, untouched);
    tally.judge_refusal(a.refusal, a.plans == 0);
    a
}

// The words are the model's entries.
fn are_entries(words: &Words, l: &Spectrum) -> bool {
    words
        .iter()
        .zip(l.entries())
        .all(|(word, entry)| *word as usize == *entry)
}

// All orderings are listed.
fn judge_listed(
    store: &Store,
    files: &Files,
    w: Lent,
    l: &Spectrum,
    tally: &mut Tally<impl Print>,
) {
    let mut words = [MARK; MAX_WORDS];
    let a = orderings(store, files, w, l.length, &mut words, tally);
    let plans = a.refusal == 0 && a.plans == l.plans;
    tally.judge(LISTED, plans && are_entries(&words, l));
}

// What is refused, and with what.
pub fn judge_refused(
    store: &Store,
    files: &Files,
    w: Lent,
    refusal: u32,
    kind: usize,
    tally: &mut Tally<impl Print>,
) {
    let mut words = [MARK; MAX_WORDS];
    let a = orderings(store, files, w, 0, &mut words, tally);
    tally.judge(kind, a.refusal == refusal);
}

// In a list of the entries and in a longer one; in one a word short or of no words, 32.
fn judge_lengths(
    store: &Store,
    files: &Files,
    with: Lent,
    l: &Spectrum,
    tally: &mut Tally<impl Print>,
) {
    let mut w = with;
    w.words = l.length;
    w.scratch = l.greatest;
    judge_listed(store, files, w, l, tally);
    w.words = w.words.wrapping_add(3);
    w.scratch = w.scratch.wrapping_add(5);
    judge_listed(store, files, w, l, tally);
    w.words = l.length.wrapping_sub(1);
    judge_refused(store, files, w, 32, SHORT, tally);
    w.scratch = 0;
    judge_refused(store, files, w, 32, SHORT, tally);
    w.words = 0;
    judge_refused(store, files, w, 32, SHORT, tally);
}

// In every length of scratch from a word below the least need on: those below the greatest give 20, whichever
// ordering is the first to need more.
fn judge_scratch(
    store: &Store,
    files: &Files,
    with: Lent,
    l: &Spectrum,
    tally: &mut Tally<impl Print>,
) {
    let mut w = with;
    w.words = l.length;
    if let Some(least) = l.least {
        for scratch in least.wrapping_sub(1)..l.greatest % MAX_SCRATCH {
            w.scratch = scratch;
            judge_refused(store, files, w, 20, SCRATCH, tally);
        }
    }
}

// A store without its last word in too few words of list and scratch; a query of a byte less or more, over
// this store too.
pub fn judge_damaged(
    store: &Store,
    files: &Files,
    with: Lent,
    large: bool,
    tally: &mut Tally<impl Print>,
) {
    let mut w = with;
    let refusal = if large { 31 } else { 19 };
    w.store = with.store.wrapping_sub(1);
    w.words = 0;
    judge_refused(store, files, w, refusal, ORDER, tally);
    w.scratch = 9;
    judge_refused(store, files, w, refusal, ORDER, tally);
    w.query = with.query.wrapping_sub(1);
    judge_refused(store, files, w, 6, ORDER, tally);
    w.query = with.query.wrapping_add(1);
    judge_refused(store, files, w, 7, ORDER, tally);
}

pub fn judge_all(
    store: &Store,
    files: &Files,
    w: Lent,
    l: &Spectrum,
    tally: &mut Tally<impl Print>,
) {
    judge_lengths(store, files, w, l, tally);
    judge_scratch(store, files, w, l, tally);
}

// Over each of two stores, the second of so many words: the answer, and every word afterwards.
fn same_orderings(one: &Store, two: &Store, files: &Files, w: Lent, words: usize) -> bool {
    let mut scratch = [MARK; MAX_WORDS];
    let mut scratch_two = [MARK; MAX_WORDS];
    let mut list = [MARK; MAX_WORDS];
    let mut list_two = [MARK; MAX_WORDS];
    let mut v = w;
    v.store = words;
    let a = call(one, files, w, &mut scratch, &mut list);
    let b = call(two, files, v, &mut scratch_two, &mut list_two);
    let same = a.refusal == b.refusal && a.plans == b.plans;
    same && list == list_two && scratch == scratch_two
}

// In lengths that fit, and in some around these.
pub fn judge_stores(
    one: &Store,
    two: &Store,
    files: &Files,
    with: Lent,
    l: &Spectrum,
    words: usize,
    random: &mut Random,
    tally: &mut Tally<impl Print>,
) {
    let mut w = with;
    w.words = l.length;
    w.scratch = l.greatest;
    tally.judge(OTHERS, same_orderings(one, two, files, w, words));
    w.scratch = w.scratch.wrapping_add(1).wrapping_sub(random.below(8));
    tally.judge(OTHERS, same_orderings(one, two, files, w, words));
    w.words = w.words.wrapping_add(1).wrapping_sub(random.below(3));
    tally.judge(OTHERS, same_orderings(one, two, files, w, words));
}
