// The operation Bounds: from a store, a query and a plan, without a run, to the words of list and scratch
// to set aside, the cost and the largest number of rows of any operator, none of which a run passes
// (document 02, request 11). `specs/` says what they are and what is promised of a run, `proofs/` that it
// is so. What a run does need is `run_spec`'s, and counted by `count`.
#![tactic(auto)]

mod capped;
mod longest;
mod pile;

ghost use Rattle.std.specs.Prelude.{◌≡◌};
ghost use Rattle.refusals.specs.Inner.Refusals.{number, fault_of};
ghost use Rattle.plan_bounds.specs.Answer.{bounds_fault, bounds_answer};

use refusals::Refusal;

// What Bounds answers: a refusal with zeros, or 0 with the four numbers, each one too large for 64 bits as
// the largest of them.
#[derive(Clone, Copy)]
pub struct BoundsAnswer {
    // 0 where the plan and the store are accepted. A number, as the definition `bounds_answer` gives it.
    pub refusal: u32,
    // At least the words of the match list.
    pub list_words: u64,
    // At least the need.
    pub scratch_words: u64,
    // At least the cost.
    pub cost: u64,
    // The largest bound of an operator's rows.
    pub largest: u64,
}

impl BoundsAnswer {
    fn refused(refusal: Refusal) -> Self
        ensures { result ≡ record {
          refusal = number refusal;
          list_words = 0;
          scratch_words = 0;
          cost = 0;
          largest = 0;
        } }
    {
        BoundsAnswer {
            refusal: refusal.number(),
            list_words: 0,
            scratch_words: 0,
            cost: 0,
            largest: 0,
        }
    }
}

// Refuses a plan as Check plan does, and then a store to which no graph file loads.
fn check_bounds(store: &[u32], query: &[u8], plan: &[u8]) -> Result<(), Refusal>
    ensures { fault_of result ≡ bounds_fault store.now query.now plan.now }
{
    plan_file::check_plan_file(query, plan)?;
    store_check::check_store(store)
}

// The bounds of a plan.
pub fn bounds(store: &[u32], query: &[u8], plan: &[u8]) -> BoundsAnswer
    ensures { result ≡ bounds_answer store.now query.now plan.now }
{
    match check_bounds(store, query, plan) {
        Err(refusal) => BoundsAnswer::refused(refusal),
        Ok(()) => pile::answer(store, query_file::query_of(query), plan_file::plan_of(plan)),
    }
}
