// Run over marked words, with what it leaves there judged.
use crate::recorded;
use judge_matcher::files::operators;
use judge_matcher::lent::*;
use judge_matcher::slices::*;
use judge_matcher::tally::*;
use lending::{Filled, run_lending};
use run::RunAnswer;

// A run that is lent words of the store, the scratch and the list.
pub fn lend(store: &Store, files: &Files, w: Lent, scratch: &mut List, list: &mut List) -> Filled {
    let query = first(files, w.query);
    let plan = part(files, PLAN, w.plan);
    run_lending(
        first(store, w.store),
        query,
        plan,
        w.cache,
        first_mut(scratch, w.scratch),
        first_mut(list, w.list),
        recorded::marked(w.records),
    )
}

// A run over marked words of scratch and list and marked records. It clears the scratch, and touches no word
// of the list past the last row, no record past the last operator, and nothing past what it is lent.
pub fn run(
    store: &Store,
    files: &Files,
    w: Lent,
    list: &mut List,
    tally: &mut Tally<impl Print>,
) -> RunAnswer {
    let mut scratch = [MARK; LIST_WORDS];
    let filled = lend(store, files, w, &mut scratch, list);
    let a = filled.answer;
    let rows = row_words(a.rows, w.width);
    let untouched = is_marked(&scratch, w.scratch, w.scratch) && is_marked(list, rows, w.list);
    recorded::judge(&filled, operators(files), tally);
    tally.judge(CLEARED, all_are(&scratch, 0, w.scratch, 0));
    tally.judge(UNTOUCHED, untouched);
    a
}
