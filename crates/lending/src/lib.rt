// Run for callers in the language that hold the records in an array: it lends them as the slice that Run
// takes (document 02, request 4). `trace` and `judge` call it; from C and Rust Run is called by
// `rizhavaan`.
#![tactic(auto)]

ghost use Rattle.std.specs.Prelude.{◌≤◌};
ghost use Rattle.plan.specs.Plan.{max_operators};
ghost use Rattle.lending.specs.Lending.{Fills};

use plan::Plan;
use run::run;
use run_spec::{Record, RunAnswer};

// The records in an array, and how many of them are lent; all, where that is more than there are.
#[derive(Drop)]
pub struct Lending {
    // The records.
    pub records: [Record; Plan::MAX_OPERATORS],
    // How many of them are lent; all, where that is more than there are.
    pub lent: usize,
}

// What Run answers, and the records afterwards.
#[derive(Drop)]
pub struct Filled {
    // What Run answers.
    pub answer: RunAnswer,
    // The records afterwards.
    pub records: [Record; Plan::MAX_OPERATORS],
}

// Run, which is lent no more records than there are.
fn lend(
    store: &[u32],
    query: &[u8],
    plan: &[u8],
    cache: bool,
    scratch: &mut [u32],
    list: &mut [u32],
    held: Lending,
) -> Filled
    requires { held.lent ≤ max_operators }
    ensures { Fills cache store.now query.now plan.now
        scratch.old scratch.new list.old list.new held result }
{
    let lent = held.lent;
    let mut records = held.records;
    let answer = run(
        store,
        query,
        plan,
        cache,
        scratch,
        list,
        &mut records[..lent],
    );
    Filled { answer, records }
}

// Run, which is lent the first of the records.
pub fn run_lending(
    store: &[u32],
    query: &[u8],
    plan: &[u8],
    cache: bool,
    scratch: &mut [u32],
    list: &mut [u32],
    held: Lending,
) -> Filled
    ensures { Fills cache store.now query.now plan.now
        scratch.old scratch.new list.old list.new held result }
{
    if Plan::MAX_OPERATORS < held.lent {
        let records = held.records;
        let all = Lending {
            records,
            lent: Plan::MAX_OPERATORS,
        };
        return lend(store, query, plan, cache, scratch, list, all);
    }
    lend(store, query, plan, cache, scratch, list, held)
}
