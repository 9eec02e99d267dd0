// Bounds of a plan over a store: against the model, over another store, and refused.
use crate::model::Bounds;
use crate::numbers::TOP;
use crate::tallied::*;
use judge_matcher::lent::{Files, PLAN, Store};
use judge_matcher::slices::*;
use judge_matcher::tally::Tally;
use plan_bounds::BoundsAnswer;

// The words of the store and the bytes of the two files that are lent.
#[derive(Clone, Copy)]
pub struct Lent {
    pub store: usize,
    pub query: usize,
    pub plan: usize,
}

// Bounds; refused, they are zeros.
fn bounds(store: &Store, files: &Files, w: Lent, tally: &mut Tally<impl Print>) -> BoundsAnswer {
    let used = first(store, w.store);
    let a = plan_bounds::bounds(used, first(files, w.query), part(files, PLAN, w.plan));
    let zeros = a.list_words == 0 && a.scratch_words == 0 && a.cost == 0 && a.largest == 0;
    tally.judge_refusal(a.refusal, zeros);
    a
}

fn are(a: BoundsAnswer, m: Bounds) -> bool {
    a.refusal == 0
        && a.list_words == m.list_words
        && a.scratch_words == m.scratch_words
        && a.cost == m.cost
        && a.largest == m.largest
}

// Counts the numbers that are too large for 64 bits.
fn count_passed(a: BoundsAnswer, tally: &mut Tally<impl Print>) {
    let numbers = [a.list_words, a.scratch_words, a.cost, a.largest];
    for (i, number) in numbers.iter().enumerate() {
        tally.count(PASSED + i, (*number == TOP) as u64);
    }
}

// The bounds are the model's, whatever lies past the words of the store.
pub fn judge_exact(
    store: &Store,
    files: &Files,
    w: Lent,
    m: Bounds,
    tally: &mut Tally<impl Print>,
) {
    let mut more = w;
    more.store = w.store.wrapping_add(5);
    let a = bounds(store, files, w, tally);
    let b = bounds(store, files, more, tally);
    tally.judge(BOUNDS, are(a, m));
    tally.judge(BOUNDS, are(b, m));
    count_passed(a, tally);
}

// What is refused, and with what.
fn judge_refused(
    store: &Store,
    files: &Files,
    w: Lent,
    refusal: u32,
    tally: &mut Tally<impl Print>,
) {
    let a = bounds(store, files, w, tally);
    tally.judge(ORDER, a.refusal == refusal);
}

// A store without its last word, a plan of a byte less or more, a query of a byte less or more: the query's
// refusals come first, the store's last.
pub fn judge_damaged(store: &Store, files: &Files, with: Lent, tally: &mut Tally<impl Print>) {
    let mut w = with;
    w.store = with.store.wrapping_sub(1);
    judge_refused(store, files, w, 19, tally);
    w.plan = with.plan.wrapping_sub(1);
    judge_refused(store, files, w, 12, tally);
    w.plan = with.plan.wrapping_add(1);
    judge_refused(store, files, w, 13, tally);
    w.query = with.query.wrapping_sub(1);
    judge_refused(store, files, w, 6, tally);
    w.query = with.query.wrapping_add(1);
    judge_refused(store, files, w, 7, tally);
}

fn are_same(a: BoundsAnswer, b: BoundsAnswer) -> bool {
    a.refusal == b.refusal
        && a.list_words == b.list_words
        && a.scratch_words == b.scratch_words
        && a.cost == b.cost
        && a.largest == b.largest
}

// The same over each of two stores.
fn judge_same(
    one: &Store,
    two: &Store,
    files: &Files,
    w: Lent,
    words: usize,
    tally: &mut Tally<impl Print>,
) {
    let mut v = w;
    v.store = words;
    let a = bounds(one, files, w, tally);
    let b = bounds(two, files, v, tally);
    tally.judge(OTHERS, are_same(a, b));
}

// The second store is of so many words; with a plan that fits, and with one of a byte less.
pub fn judge_stores(
    one: &Store,
    two: &Store,
    files: &Files,
    with: Lent,
    words: usize,
    tally: &mut Tally<impl Print>,
) {
    let mut w = with;
    judge_same(one, two, files, w, words, tally);
    w.plan = with.plan.wrapping_sub(1);
    judge_same(one, two, files, w, words, tally);
}
