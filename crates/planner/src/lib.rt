// The operation Draw plan: from a store and a query to a packed plan of one scan and n - 2 extends, and
// refusal 24 (document 02, requests 5 and 9). `specs/` says which bytes these are and when it is refused,
// `proofs/` that they pass the plan check. Which vertex comes next is decided in `plan_order`.
#![tactic(auto)]

mod pack;

ghost use Rattle.std.specs.Prelude.{◌≡◌, [], ◌∷◌, length};
ghost use Rattle.refusals.specs.Inner.Refusals.{number, fault_of};
ghost use Rattle.lists.specs.Refusal.{first};
ghost use Rattle.graph.specs.Store.{graph_in, store_fault};
ghost use Rattle.query.specs.File.{query_fault};
ghost use Rattle.query.specs.Inner.Struct.{query_in};
ghost use Rattle.planner.specs.Draw.{draw_answer, draw_bytes};
ghost use Rattle.planner.specs.Complete.{PassesCheck};
ghost use Rattle.plan_order.specs.Inner.Counts.{Drawable};
ghost use Rattle.planner.specs.Inner.Parts.{Drawn};

use query::Query;
use refusals::Refusal;

// What Draw plan answers: a refusal with 0, or 0 with the plan's length.
#[derive(Drop)]
pub struct DrawAnswer {
    // 0 where a plan is drawn. A number, as the definition `draw_answer` gives it.
    pub refusal: u32,
    // The bytes of the plan.
    pub bytes: usize,
}

impl DrawAnswer {
    fn refused(refusal: Refusal) -> Self
        ensures { result ≡ record { refusal = number refusal; bytes = 0 } }
    {
        DrawAnswer {
            refusal: refusal.number(),
            bytes: 0,
        }
    }
}

// Draws the plan of a query that was read over an accepted store: 24, or the plan.
pub fn draw_accepted(store: &[u32], q: Query, plan: &mut [u8]) -> DrawAnswer
    requires { Drawable q × (store_fault store.now ≡ 0) }
    ensures { Drawn (graph_in store.now) (query_in q) plan.old plan.new
        result }
{
    let edge = plan_order::scan_edge(q, &plan_order::edge_counts(store));
    let bytes = pack::plan_bytes(q.vertices);
    if plan.len() < bytes {
        return DrawAnswer::refused(Refusal::PlanBytes);
    }
    pack::put_plan(q, edge, plan);
    DrawAnswer { refusal: 0, bytes }
}

// Refuses a query file as Read query does, then a store that no accepted graph file loads to.
pub fn check(store: &[u32], query: &[u8]) -> Result<(), Refusal>
    ensures { fault_of result ≡ first (query_fault query.now ∷ store_fault store.now ∷ []) }
{
    query_file::check_query(query)?;
    store_check::check_store(store)
}

// Draws a plan.
pub fn draw_plan(store: &[u32], query: &[u8], plan: &mut [u8]) -> DrawAnswer
    ensures answer { result ≡ draw_answer store.now query.now
        (length plan.old) }
    ensures bytes { plan.new ≡ draw_bytes store.now query.now
        plan.old }
    ensures checked { PassesCheck store.now query.now result plan.new }
{
    match check(store, query) {
        Err(refusal) => DrawAnswer::refused(refusal),
        Ok(()) => draw_accepted(store, query_file::query_of(query), plan),
    }
}
