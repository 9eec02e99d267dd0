// The runs of a plan, against the matcher and against each other.
use crate::counts::judge_count;
use crate::runs;
use judge_inputs::graphs::Graph;
use judge_matcher::files::operators;
use judge_matcher::lent::*;
use judge_matcher::slices::same_words;
use judge_matcher::tally::*;
use judge_matcher::ticks::*;
use run::RunAnswer;

// What the runs of a plan are lent, and what the first one answered.
#[derive(Clone, Copy)]
struct Ran {
    with: Lent,
    answer: RunAnswer,
}

// Another run of a plan, which gives the refusal, if there is one, or does as the first: the same rows in the
// same order, the same counts, and a cost no higher, without the cache the same. Answers the run's refusal.
fn judge_again(
    store: &Store,
    files: &Files,
    with: Lent,
    a: RunAnswer,
    before: &List,
    refusal: Option<u32>,
    kind: usize,
    tally: &mut Tally<impl Print>,
) -> u32 {
    let mut list = [MARK; LIST_WORDS];
    let b = runs::run(store, files, with, &mut list, tally);
    let counts = a.rows == b.rows && a.build == b.build && a.probe == b.probe;
    let cost = b.cost <= a.cost && (with.cache || a.cost == b.cost);
    let rows = same_words(before, &list, with.list);
    let same = b.refusal == 0 && counts && cost && rows;
    let refused = b.refusal != 0 && Some(b.refusal) == refusal;
    let saved = kind == CACHE && b.cost < a.cost;
    tally.judge(kind, same || refused);
    tally.count(SAVED, saved as u64);
    b.refusal
}

// Lengths of scratch ever closer to the need: those below `short` give 20, and it grows by ever smaller steps
// until it serves. Answers the need.
fn judge_scratch(
    store: &Store,
    files: &Files,
    ran: Ran,
    before: &List,
    tally: &mut Tally<impl Print>,
) -> usize {
    let a = ran.answer;
    let mut w = ran.with;
    let mut short = 0usize;
    for k in 0..14usize {
        let step = 8192usize >> (k % 32);
        w.scratch = short.wrapping_add(step).wrapping_sub(1);
        if judge_again(store, files, w, a, before, Some(20), SCRATCH, tally) == 20 {
            short = short.wrapping_add(step);
        }
    }
    short
}

// With the other cache setting the need is the same; a word less gives 20, also where the list is too short.
fn judge_need(
    store: &Store,
    files: &Files,
    ran: Ran,
    need: usize,
    before: &List,
    tally: &mut Tally<impl Print>,
) {
    let a = ran.answer;
    let mut w = ran.with;
    w.cache = !ran.with.cache;
    w.scratch = need;
    judge_again(store, files, w, a, before, None, SCRATCH, tally);
    w.scratch = need.wrapping_sub(1);
    w.list = w.list / 2;
    let refusal = judge_again(store, files, w, a, before, Some(20), SCRATCH, tally);
    tally.judge(SCRATCH, refusal == 20);
}

// A list of just the rows' words serves as well; one a word shorter gives 21.
fn judge_list(
    store: &Store,
    files: &Files,
    ran: Ran,
    before: &List,
    tally: &mut Tally<impl Print>,
) {
    let a = ran.answer;
    let mut w = ran.with;
    judge_again(store, files, w, a, before, None, LIST, tally);
    if 0 < w.list {
        w.list = w.list.wrapping_sub(1);
        let refusal = judge_again(store, files, w, a, before, Some(21), LIST, tally);
        tally.judge(LIST, refusal == 21);
    }
}

// As many records as the plan has operators serve as well; one fewer gives 22, also where the list is too
// short.
fn judge_records(
    store: &Store,
    files: &Files,
    ran: Ran,
    before: &List,
    tally: &mut Tally<impl Print>,
) {
    let a = ran.answer;
    let mut w = ran.with;
    w.records = operators(files);
    judge_again(store, files, w, a, before, None, RECORDS, tally);
    w.records = w.records.wrapping_sub(1);
    w.list = w.list / 2;
    let refusal = judge_again(store, files, w, a, before, Some(22), RECORDS, tally);
    tally.judge(RECORDS, refusal == 22);
}

// Lists, records and scratches of many lengths, and a count.
fn judge_lengths(
    store: &Store,
    files: &Files,
    ran: Ran,
    before: &List,
    tally: &mut Tally<impl Print>,
) {
    judge_list(store, files, ran, before, tally);
    judge_records(store, files, ran, before, tally);
    let need = judge_scratch(store, files, ran, before, tally);
    judge_need(store, files, ran, need, before, tally);
    judge_count(store, files, ran.with, ran.answer, need, tally);
}

// Counts a plan with rows, one with joined rows, and the rows.
fn count_rows(a: RunAnswer, tally: &mut Tally<impl Print>) {
    tally.count(FILLED, (0 < a.rows) as u64);
    tally.count(JOINED, (0 < a.build && 0 < a.probe) as u64);
    tally.count(ROWS, a.rows as u64);
}

// All runs of the last of so many plans of a query; answers whether they were judged, and not too large for
// the scratch. The first run is with the cache off; one with it on needs no more.
pub fn judge_plan(
    g: &Graph,
    store: &Store,
    files: &Files,
    with: Lent,
    matches: &mut Matches,
    plans: u32,
    tally: &mut Tally<impl Print>,
) -> bool {
    let mut before = [MARK; LIST_WORDS];
    let mut w = with;
    let a = runs::run(store, files, with, &mut before, tally);
    if a.refusal == 20 {
        return false;
    }
    let matched = matches.are_rows(g, plans, a.rows, with.width, &before);
    tally.judge(MATCHED, matched && a.refusal == 0);
    count_rows(a, tally);
    w.cache = true;
    judge_again(store, files, w, a, &before, None, CACHE, tally);
    w.cache = plans == 1;
    w.list = row_words(a.rows, with.width);
    let ran = Ran { with: w, answer: a };
    judge_lengths(store, files, ran, &before, tally);
    true
}
