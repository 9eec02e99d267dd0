// Count over marked words, with what it leaves there judged, against the runs of the plan.
use count::{CountAnswer, count};
use judge_matcher::lent::*;
use judge_matcher::slices::*;
use judge_matcher::tally::{CLEARED, SCRATCH, Tally, UNTOUCHED};
use run::RunAnswer;

// A count that is lent words of the store and the scratch.
pub fn lend(store: &Store, files: &Files, w: Lent, scratch: &mut List) -> CountAnswer {
    let used = first(store, w.store);
    let query = first(files, w.query);
    let plan = part(files, PLAN, w.plan);
    count(used, query, plan, w.cache, first_mut(scratch, w.scratch))
}

// A count over marked words. It clears the scratch, and touches nothing past what it is lent; refused, it
// answers zeros.
fn marked_count(
    store: &Store,
    files: &Files,
    w: Lent,
    tally: &mut Tally<impl Print>,
) -> CountAnswer {
    let mut scratch = [MARK; LIST_WORDS];
    let c = lend(store, files, w, &mut scratch);
    let zeros = c.rows == 0 && c.cost == 0 && c.build == 0 && c.probe == 0 && c.need == 0;
    tally.judge(CLEARED, all_are(&scratch, 0, w.scratch, 0));
    tally.judge(UNTOUCHED, is_marked(&scratch, w.scratch, w.scratch));
    tally.judge_refusal(c.refusal, zeros);
    c
}

// In a scratch of the need it answers what a run without the cache did, but for a cost that may be lower with
// it, and the need; in one a word shorter, 20.
pub fn judge_count(
    store: &Store,
    files: &Files,
    with: Lent,
    a: RunAnswer,
    need: usize,
    tally: &mut Tally<impl Print>,
) {
    let mut w = with;
    w.scratch = need;
    let c = marked_count(store, files, w, tally);
    let counts = c.rows == a.rows && c.build == a.build && c.probe == a.probe;
    let cost = c.cost <= a.cost && (w.cache || c.cost == a.cost);
    tally.judge(SCRATCH, c.refusal == 0 && counts && cost && c.need == need);
    w.scratch = need.wrapping_sub(1);
    let d = marked_count(store, files, w, tally);
    tally.judge(SCRATCH, d.refusal == 20);
}
