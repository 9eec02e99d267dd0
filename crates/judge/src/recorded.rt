// The records of a run: marked before, judged afterwards.
use judge_matcher::tally::{RECORDS, Tally, UNTOUCHED};
use lending::{Filled, Lending};
use plan::Plan;
use run::RunAnswer;
use run_spec::Record;

pub const COUNT: usize = Plan::MAX_OPERATORS;

const MARK: u64 = 16045690984503098046;

// Marked records, of which so many are lent.
pub fn marked(lent: usize) -> Lending {
    Lending {
        records: [Record {
            rows: MARK,
            cost: MARK,
        }; COUNT],
        lent,
    }
}

// The costs of the records add up to the answer's, and the last one's rows are the answer's.
fn adds_up(records: &[Record], a: RunAnswer) -> bool {
    let mut cost = 0u64;
    let mut rows = 0;
    for r in records {
        cost = cost.wrapping_add(r.cost);
        rows = r.rows;
    }
    cost == a.cost && rows == a.rows as u64
}

// Refused, a run answers zeros and touches no record; accepted, the records of its operators add up, and no
// other is touched.
pub fn judge(filled: &Filled, count: usize, tally: &mut Tally<impl Print>) {
    let a = filled.answer;
    let made = if a.refusal == 0 { count.min(COUNT) } else { 0 };
    let untouched = filled.records[made..]
        .iter()
        .all(|r| r.rows == MARK && r.cost == MARK);
    tally.judge(UNTOUCHED, untouched);
    if a.refusal == 0 {
        tally.judge(RECORDS, adds_up(&filled.records[..made], a));
    }
    let zeros = a.rows == 0 && a.cost == 0 && a.build == 0 && a.probe == 0;
    tally.judge_refusal(a.refusal, zeros);
}
