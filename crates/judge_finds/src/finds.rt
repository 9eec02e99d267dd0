// Find over marked words, against Draw plan and then Run on what it drew: the answer, and every byte, word
// and record afterwards.
use crate::tallied::{FOUND, count_given};
use find::find_recorded;
use judge_inputs::random::Random;
use judge_matcher::lent::*;
use judge_matcher::slices::*;
use judge_matcher::tally::{CLEARED, REFUSED, Tally, UNTOUCHED};
use lending::{Filled, Lending, run_lending};
use plan::Plan;
use run_spec::{Record, RunAnswer};

pub const COUNT: usize = Plan::MAX_OPERATORS;

// What stands in the records before.
const OLD: u64 = 16045690984503098046;

// The bytes of the plan that is drawn for a query of so many vertices: a count of 5 bits, 7 of the scan and 5
// of each extend.
const LENGTHS: [u64; 9] = [0, 0, 2, 3, 3, 4, 4, 5, 6];

// What Find answers and leaves, but for the words and bytes: the plan's length, the answer, and the records
// of so many operators.
#[derive(Clone, Copy)]
struct Found {
    bytes: u64,
    answer: RunAnswer,
    operators: usize,
    records: [Record; COUNT],
}

// Draw plan, and then Run on what it drew, with marked records, in the first of the bytes and words.
fn draw_and_run(
    store: &Store,
    files: &Files,
    w: Lent,
    plan: &mut Files,
    scratch: &mut List,
    list: &mut List,
) -> Filled {
    let used = first(store, w.store);
    let query = first(files, w.query);
    let room = first_mut(plan, w.plan);
    let work = first_mut(scratch, w.scratch);
    let rows = first_mut(list, w.list);
    let old = Record {
        rows: OLD,
        cost: OLD,
    };
    let lent = Lending {
        records: [old; COUNT],
        lent: w.records,
    };
    let drawn = planner::draw_plan(used, query, room);
    if drawn.refusal != 0 {
        return Filled {
            answer: RunAnswer::refused(drawn.refusal),
            records: [old; COUNT],
        };
    }
    run_lending(
        used,
        query,
        first(room, drawn.bytes),
        w.cache,
        work,
        rows,
        lent,
    )
}

// The one call of Find: what it is to store is left in an array.
fn find(
    store: &Store,
    files: &Files,
    w: Lent,
    plan: &mut Files,
    scratch: &mut List,
    list: &mut List,
) -> Found {
    let mut bytes = 77;
    let r = find_recorded(
        first(store, w.store),
        first(files, w.query),
        first_mut(plan, w.plan),
        w.cache,
        first_mut(scratch, w.scratch),
        first_mut(list, w.list),
        w.records.min(COUNT),
        &mut bytes,
    );
    let answer = r.answer;
    let records = r.records;
    Found {
        bytes,
        answer,
        operators: r.operators,
        records,
    }
}

fn same_answers(a: RunAnswer, b: RunAnswer) -> bool {
    a.refusal == b.refusal
        && a.rows == b.rows
        && a.cost == b.cost
        && a.build == b.build
        && a.probe == b.probe
}

fn same_record(a: &Record, b: &Record) -> bool {
    a.rows == b.rows && a.cost == b.cost
}

// Find clears the scratch and no more; refused, it answers zeros.
fn judge_left(f: &Found, scratch: &List, w: Lent, tally: &mut Tally<impl Print>) {
    let a = f.answer;
    let zeros = a.rows == 0 && a.cost == 0 && a.build == 0 && a.probe == 0 && f.bytes == 0;
    tally.judge(CLEARED, all_are(scratch, 0, w.scratch, 0));
    tally.judge(UNTOUCHED, is_marked(scratch, w.scratch, w.scratch));
    tally.judge(REFUSED, a.refusal == 0 || zeros);
    count_given(a.refusal, tally);
}

// The same answer; the records that Find is to store are those that the run left, which left the others as
// they were.
fn same_left(f: &Found, left: &Filled) -> bool {
    let made = f.operators.min(COUNT);
    let stored = f.records[..made]
        .iter()
        .zip(&left.records[..made])
        .all(|(a, b)| same_record(a, b));
    let others = left.records[made..]
        .iter()
        .all(|r| r.rows == OLD && r.cost == OLD);
    same_answers(f.answer, left.answer) && stored && others
}

// Both over one store.
fn judge_both(store: &Store, files: &Files, w: Lent, tally: &mut Tally<impl Print>) {
    let mut plan = [9u8; FILE_BYTES];
    let mut plan_two = [9u8; FILE_BYTES];
    let mut scratch = [MARK; LIST_WORDS];
    let mut scratch_two = [MARK; LIST_WORDS];
    let mut list = [MARK; LIST_WORDS];
    let mut list_two = [MARK; LIST_WORDS];
    let f = find(store, files, w, &mut plan, &mut scratch, &mut list);
    let two = draw_and_run(
        store,
        files,
        w,
        &mut plan_two,
        &mut scratch_two,
        &mut list_two,
    );
    let length = f.answer.refusal != 0 || f.bytes == LENGTHS[w.width % 9];
    let same = same_left(&f, &two) && plan == plan_two && list == list_two;
    tally.judge(FOUND, same && length);
    judge_left(&f, &scratch, w, tally);
}

// In ample bytes, words and records, and in few of each; over a store without its last word.
pub fn judge_find(
    store: &Store,
    files: &Files,
    with: Lent,
    random: &mut Random,
    tally: &mut Tally<impl Print>,
) {
    let mut w = with;
    judge_both(store, files, w, tally);
    w.cache = true;
    w.list = random.below(64);
    judge_both(store, files, w, tally);
    w.scratch = random.below(64);
    w.plan = random.below(12);
    w.records = random.below(12);
    judge_both(store, files, w, tally);
    w.store = w.store.wrapping_sub(1);
    judge_both(store, files, w, tally);
}
