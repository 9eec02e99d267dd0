// The records of a run, one an operator: kept by value while it runs, stored in the lent ones when it is
// accepted (document 02, request 4; document 01, 'Where each language form goes': the thin function). What
// stands in them comes from `totals`.
#![tactic(auto)]

ghost use Rattle.std.specs.Prelude.{◌≡◌, ◌++◌, ◌≤◌, length, take, drop};
ghost use Rattle.plan.specs.Plan.{max_operators};

use plan::Plan;
use run_spec::{Record, RunAnswer};

// What a run answers, and what it is to store.
#[derive(Clone, Copy)]
pub struct Recorded {
    // The answer.
    pub answer: RunAnswer,
    // How many records there are to store.
    pub operators: usize,
    // The records, one an operator.
    pub records: [Record; Plan::MAX_OPERATORS],
}

impl Recorded {
    // A refused run has nothing to store.
    pub fn refused(refusal: u32) -> Self
        ensures { (result.answer ≡ record {
          refusal = refusal;
          rows = 0;
          cost = 0;
          build = 0;
          probe = 0;
        }) × (result.operators ≡ 0) }
    {
        let answer = RunAnswer::refused(refusal);
        Recorded {
            answer,
            operators: 0,
            records: [Record { rows: 0, cost: 0 }; Plan::MAX_OPERATORS],
        }
    }
}

// Stores rows and cost of each operator into its record, and answers what the run does.
pub fn store_records(recorded: Recorded, records: &mut [Record]) -> RunAnswer
    requires { (recorded.operators ≤ length records.old)
        × (recorded.operators ≤ length recorded.records) × (recorded.operators ≤ max_operators) }
    ensures { (result ≡ recorded.answer) × (records.new
        ≡ take recorded.operators recorded.records ++ drop recorded.operators
        records.old) }
{
    let count = recorded.operators;
    records[..count].copy_from_slice(&recorded.records[..count]);
    recorded.answer
}
