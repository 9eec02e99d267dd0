// Edges of labels that a query does not name: over a second store that has others of them, Run, Count and
// Draw plan answer and leave the same. Bounds and All orderings have judges of their own, which do so too.
use crate::{counts, runs};
use judge_inputs::graphs::Graph;
use judge_inputs::queries::Query;
use judge_inputs::random::Random;
use judge_matcher::lent::*;
use judge_matcher::slices::*;
use judge_matcher::stores::load_file;
use judge_matcher::tally::*;
use run::RunAnswer;
use run_spec::Record;

fn same_answers(a: RunAnswer, b: RunAnswer) -> bool {
    a.refusal == b.refusal
        && a.rows == b.rows
        && a.cost == b.cost
        && a.build == b.build
        && a.probe == b.probe
}

fn same_records(one: &[Record], two: &[Record]) -> bool {
    one.iter()
        .zip(two)
        .all(|(a, b)| a.rows == b.rows && a.cost == b.cost)
}

// A run over each of two stores, the second of so many words: the answer, and every word and record
// afterwards.
fn same_run(one: &Store, two: &Store, files: &Files, w: Lent, words: usize) -> bool {
    let mut scratch = [MARK; LIST_WORDS];
    let mut list = [MARK; LIST_WORDS];
    let mut scratch_two = [MARK; LIST_WORDS];
    let mut list_two = [MARK; LIST_WORDS];
    let mut v = w;
    v.store = words;
    let a = runs::lend(one, files, w, &mut scratch, &mut list);
    let b = runs::lend(two, files, v, &mut scratch_two, &mut list_two);
    let same = same_answers(a.answer, b.answer) && same_records(&a.records, &b.records);
    same && list == list_two && scratch == scratch_two
}

// A count over each of two stores: the answer, and every word afterwards.
fn same_count(one: &Store, two: &Store, files: &Files, w: Lent, words: usize) -> bool {
    let mut scratch = [MARK; LIST_WORDS];
    let mut scratch_two = [MARK; LIST_WORDS];
    let mut v = w;
    v.store = words;
    let a = counts::lend(one, files, w, &mut scratch);
    let b = counts::lend(two, files, v, &mut scratch_two);
    let numbers = a.rows == b.rows && a.cost == b.cost && a.need == b.need;
    let sums = a.build == b.build && a.probe == b.probe;
    a.refusal == b.refusal && numbers && sums && scratch == scratch_two
}

// A plan drawn over each of two stores.
fn same_draw(one: &[u32], two: &[u32], query: &[u8], room: usize) -> bool {
    let mut plan = [9u8; FILE_BYTES];
    let mut plan_two = [9u8; FILE_BYTES];
    let a = planner::draw_plan(one, query, first_mut(&mut plan, room));
    let b = planner::draw_plan(two, query, first_mut(&mut plan_two, room));
    a.refusal == b.refusal && a.bytes == b.bytes && same_bytes(&plan, &plan_two)
}

// With the cache off and on, in too few words of scratch or list or too few records, and in few bytes.
fn judge_stores(
    one: &Store,
    two: &Store,
    files: &Files,
    with: Lent,
    words: usize,
    random: &mut Random,
    tally: &mut Tally<impl Print>,
) {
    let mut w = with;
    tally.judge(OTHERS, same_run(one, two, files, w, words));
    w.cache = true;
    tally.judge(OTHERS, same_run(one, two, files, w, words));
    tally.judge(OTHERS, same_count(one, two, files, w, words));
    w.list = random.below(64);
    tally.judge(OTHERS, same_run(one, two, files, w, words));
    w.scratch = random.below(32);
    w.records = few_records(random, w.records);
    tally.judge(OTHERS, same_run(one, two, files, w, words));
    tally.judge(OTHERS, same_count(one, two, files, w, words));
    let query = first(files, w.query);
    let room = random.below(8);
    let drawn = same_draw(first(one, w.store), first(two, words), query, room);
    tally.judge(OTHERS, drawn);
}

// So many records, or seldom few.
fn few_records(random: &mut Random, records: usize) -> usize {
    let few = random.below(8);
    if few < 3 { few } else { records }
}

// A store with other edges of labels that a query does not name, one of any label excepted. The numbers drawn
// here are none of the stream's.
pub fn judge_others(
    g: &Graph,
    q: &Query,
    one: &Store,
    files: &Files,
    with: Lent,
    stream: Random,
    tally: &mut Tally<impl Print>,
) {
    if let Some(labels) = q.named_labels() {
        let mut own = stream;
        let mut h = *g;
        let mut two = [0u32; LIST_WORDS];
        h.turn_others(labels, &mut own);
        let words = graph_words(&h);
        load_file(&h, &mut two, words, tally);
        judge_stores(one, &two, files, with, words, &mut own, tally);
    }
}
