// The operation All orderings of a small pattern: every accepted plan of one scan and extends, with its
// cost, and refusals 31 and 32 (document 02, request 12; 000's plan spectrum, section 8.2). They are
// listed first; then each is run once, its rows counted and not written; and when none is refused, the
// entries are written. The one ordering that the engine draws is `plan_order`'s.
#![tactic(auto)]

mod listing;
mod writing;

ghost use Rattle.std.specs.Prelude.{◌≡◌, length, take, drop, ◌+◌, ◌≤◌};
ghost use Rattle.graph.specs.Store.{graph_in, store_fault};
ghost use Rattle.query.specs.Inner.Struct.{query_in};
ghost use Rattle.plan.specs.Plan.{max_operators};
ghost use Rattle.plan.specs.Inner.Struct.{operators_in};
ghost use Rattle.operator_spec.specs.Limit.{max_words};
ghost use Rattle.run_spec.specs.Run.{run_scratch};
ghost use Rattle.refusals.specs.Inner.Refusals.{number, fault_of};
ghost use Rattle.plan_spectrum.specs.Orders.{plan_of};
ghost use Rattle.plan_spectrum.specs.Spectrum.{orderings_answer, orderings_words};
ghost use Rattle.plan_spectrum.specs.Claims.{EveryOrderingListed};
ghost use Rattle.plan_spectrum.specs.Inner.Parts.{Small, Lie, AllRun, Settled, early_fault};

use executor::counted;
use executor::counting::count_run;
use plan::Plan;
use query::Query;
use refusals::Refusal;
use words::{clear_used, copy};

// What All orderings answers: a refusal with 0, or 0 with the number of plans.
#[derive(Drop)]
pub struct OrderingsAnswer {
    // 0 where every ordering is listed. A number, as the definition `orderings_answer` gives it.
    pub refusal: u32,
    // How many there are.
    pub plans: usize,
}

impl OrderingsAnswer {
    // Larger patterns are refused.
    pub const MAX_VERTICES: usize = 5;

    // As many as 24 scans of 6 orders each.
    pub const MAX_PLANS: usize = 144;

    // The scan's index and at most three vertices of each.
    const MAX_NUMBERS: usize = 576;

    fn refused(refusal: Refusal) -> Self
        ensures { result ≡ record { refusal = number refusal; plans = 0 } }
    {
        OrderingsAnswer {
            refusal: refusal.number(),
            plans: 0,
        }
    }
}

// The plan of an ordering: its scan, then its extends.
fn plan_at(list: &[u32], at: usize, width: usize) -> Plan
    requires { (at + width ≤ length list.now) × (width ≤ max_operators) }
    ensures { (result.operators ≡ width) × (operators_in result
        ≡ plan_of (take width (drop at list.now))) }
{
    let mut kinds = [Plan::EXTEND; Plan::MAX_OPERATORS];
    kinds[0] = Plan::SCAN;
    let mut operands = [0u32; Plan::MAX_OPERATORS];
    copy(&list[at..], width, &mut operands);
    Plan::new(width, kinds, operands)
}

// Runs the orderings in turn with the cache on, and keeps the cost of each; or the first one's refusal.
fn run_orderings(
    store: &[u32],
    q: Query,
    list: &[u32],
    plans: usize,
    work: &mut [u32],
    costs: &mut [u64],
) -> Result<(), Refusal>
    requires { Lie store.now q list.now plans work.old costs.old }
    ensures { AllRun (graph_in store.now) (query_in q) (length work.old)
        costs.new (fault_of result) }
{
    let width = q.vertices - 1;
    for k in 0..plans {
        let plan = plan_at(list, k * width, width);
        let tally = count_run(store, q, plan, true, work)?;
        costs[k] = tally.cost;
    }
    Ok(())
}

// All orderings of a query that was read over an accepted store: 32, 20, 30, or the entries.
fn write_orderings(store: &[u32], q: Query, work: &mut [u32], words: &mut [u32]) -> OrderingsAnswer
    requires { Small q × (store_fault store.now ≡ 0) × (length work.old ≤ max_words) }
    ensures { Settled (graph_in store.now) (query_in q) (length work.old)
        words.old words.new result }
{
    let mut list = [0u32; OrderingsAnswer::MAX_NUMBERS];
    let plans = listing::list_orderings(q, &mut list);
    if words.len() < plans * (q.vertices + 1) {
        return OrderingsAnswer::refused(Refusal::OrderingsWords);
    }
    let mut costs = [0u64; OrderingsAnswer::MAX_PLANS];
    match run_orderings(store, q, &list, plans, work, &mut costs) {
        Err(limit) => OrderingsAnswer::refused(limit),
        Ok(()) => {
            writing::write_entries(q.vertices - 1, plans, &list, &costs, words);
            OrderingsAnswer { refusal: 0, plans }
        }
    }
}

// Refuses a query that is not accepted, then one of more vertices than are taken, then a store to which no
// graph file loads.
fn check_orderings(store: &[u32], query: &[u8]) -> Result<(), Refusal>
    ensures { fault_of result ≡ early_fault store.now query.now }
{
    query_file::check_query(query)?;
    if OrderingsAnswer::MAX_VERTICES < query_file::query_of(query).vertices {
        return Err(Refusal::OrderingsLarge);
    }
    store_check::check_store(store)
}

// All orderings but for the scratch, which is of the counted length and is left as it is.
fn orderings_counted(
    store: &[u32],
    query: &[u8],
    work: &mut [u32],
    words: &mut [u32],
) -> OrderingsAnswer
    requires { length work.old ≤ max_words }
    ensures { (result ≡ orderings_answer store.now query.now
        (length work.old) (length words.old))
        × (words.new ≡ orderings_words store.now query.now
        (length work.old) words.old) }
{
    match check_orderings(store, query) {
        Err(refusal) => OrderingsAnswer::refused(refusal),
        Ok(()) => write_orderings(store, query_file::query_of(query), work, words),
    }
}

// All orderings of a small pattern.
pub fn orderings(
    store: &[u32],
    query: &[u8],
    scratch: &mut [u32],
    words: &mut [u32],
) -> OrderingsAnswer
    ensures answer { result ≡ orderings_answer store.now query.now
        (length scratch.old) (length words.old) }
    ensures listed { words.new ≡ orderings_words store.now query.now
        (length scratch.old) words.old }
    ensures cleared { scratch.new ≡ run_scratch scratch.old }
    ensures every { EveryOrderingListed (graph_in store.now) query.now }
{
    let length = counted(scratch.len());
    let answer = orderings_counted(store, query, &mut scratch[..length], words);
    clear_used(&mut scratch[..length]);
    answer
}
