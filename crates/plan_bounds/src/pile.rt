// The pile of bounds: each operator of a plan in turn.
ghost use Rattle.std.specs.Prelude.{◌≡◌, true, [], ◌+◌, ◌*◌, ◌-◌, max, ◌≤◌, ◌<◌};
ghost use Rattle.lists.specs.Lists.{all};
ghost use Rattle.graph.specs.Graph.{Graph};
ghost use Rattle.graph.specs.Store.{graph_in, store_fault};
ghost use Rattle.query.specs.Inner.Struct.{query_in};
ghost use Rattle.plan.specs.Plan.{max_operators, scan, extend, join};
ghost use Rattle.plan.specs.Inner.Struct.{operator_is, operators_in};
ghost use Rattle.plan.specs.Inner.Pile.{named};
ghost use Rattle.operator_spec.specs.Join.{heads};
ghost use Rattle.plan_order.specs.Inner.Counts.{Drawable};
ghost use Rattle.plan_bounds.specs.Bounds.{bounds_after, step_bounds};
ghost use Rattle.plan_bounds.specs.Answer.{given};
ghost use Rattle.plan_bounds.specs.Inner.Held.{Put, Under, Piled, After, Numbers};

use crate::{BoundsAnswer, capped, longest};
use plan::{Operator, Plan};
use query::{Query, set};
use rows::column;

// What bounds a result.
#[derive(Clone, Copy)]
pub struct Bounded {
    // The query vertices that it covers.
    pub set: u32,
    // At least its rows.
    pub rows: u64,
    // At least the words that it needs while they are made.
    pub need: u64,
}

// The bounds of the results in the pile.
#[derive(Clone, Copy)]
pub struct Pile {
    // How many there are; the top one is at depth - 1.
    pub depth: usize,
    // What bounds each.
    pub bounds: [Bounded; Plan::MAX_OPERATORS],
    // At least the cost so far.
    pub cost: u64,
    // The largest bound of rows so far.
    pub largest: u64,
}

impl Pile {
    fn none() -> Self
        ensures { Piled [] [] result }
    {
        Pile {
            depth: 0,
            bounds: [Bounded {
                set: 0,
                rows: 0,
                need: 0,
            }; Plan::MAX_OPERATORS],
            cost: 0,
            largest: 0,
        }
    }

    // The one that lies `under` others.
    fn under(self, under: usize) -> Bounded
        requires { (under < self.depth) × (self.depth ≤ max_operators) }
        ensures { Under self under result }
    {
        self.bounds[self.depth - 1 - under]
    }

    // The pile after an operator of a cost, whose result is so bounded, in place of as many results as it
    // takes.
    fn put(mut self, taken: usize, b: Bounded, cost: u64) -> Self
        requires { (taken ≤ self.depth) × (self.depth - taken < max_operators) }
        ensures { Put self taken b cost result }
    {
        let depth = self.depth - taken;
        self.bounds[depth] = b;
        self.depth = depth + 1;
        self.cost = self.cost.saturating_add(cost);
        self.largest = self.largest.max(b.rows);
        self
    }
}

// A result extended to a set and a width.
fn extended(b: Bounded, set: u32, width: usize, least: usize) -> Bounded
    requires { (width ≤ 8) × (least ≤ 4294967295) }
    ensures { (result.set ≡ set) × (result.rows ≡ given (b.rows * least))
        × (result.need ≡ given (b.need + (width + least))) }
{
    Bounded {
        set,
        rows: b.rows.saturating_mul(least as u64),
        need: b.need.saturating_add((width + least) as u64),
    }
}

// The words of a table of build rows: the rows, the links and the heads.
fn table(words: u64, rows: u64) -> u64
    ensures { result ≡ given (words + given (rows + given (heads rows))) }
{
    words.saturating_add(rows.saturating_add(capped::heads(rows)))
}

// What a join needs, of the build rows' words, the build's need, its table's words, the probe's need and a
// width of its own.
fn join_need(words: u64, build: u64, table: u64, probe: u64, width: usize) -> u64
    requires { width ≤ 8 }
    ensures { result ≡ max (given (build + words)) (given (table + given (probe + width))) }
{
    let probing = table.saturating_add(probe.saturating_add(width as u64));
    build.saturating_add(words).max(probing)
}

// A build and a probe side joined to a set and a width.
fn joined(b: Bounded, p: Bounded, build_width: usize, set: u32, width: usize) -> Bounded
    requires { (build_width ≤ 8) × (width ≤ 8) }
    ensures { (result.set ≡ set) × (result.rows ≡ given (b.rows * p.rows))
        × (result.need ≡ max (given (b.need + given (b.rows * build_width)))
        (given (given (given (b.rows * build_width) + given (b.rows + given (heads b.rows))) + given
        (p.need + width)))) }
{
    let words = b.rows.saturating_mul(build_width as u64);
    Bounded {
        set,
        rows: b.rows.saturating_mul(p.rows),
        need: join_need(words, b.need, table(words, b.rows), p.need, width),
    }
}

// The pile after a scan.
fn after_scan(store: &[u32], q: Query, i: usize, pile: Pile) -> Pile
    requires { Drawable q × (store_fault store.now ≡ 0) × (i < q.edges) × (pile.depth < max_operators) }
    ensures { After (graph_in store.now) (query_in q) (scan i) pile result }
{
    let e = q.edge(i);
    let b = Bounded {
        set: plan::ends(e),
        rows: longest::edges_of(store, e.label) as u64,
        need: 2,
    };
    pile.put(0, b, 0)
}

// The pile after an extend; one with too few results stays.
fn after_extend(store: &[u32], q: Query, v: usize, pile: Pile) -> Pile
    requires { Drawable q × (store_fault store.now ≡ 0) × (v < 32) × (pile.depth ≤ max_operators) }
    ensures { After (graph_in store.now) (query_in q) (extend v) pile result }
{
    if pile.depth < 1 {
        return pile;
    }
    let b = pile.under(0);
    let p = longest::of_edges(store, q, v, b.set);
    let grown = set::only(v) | b.set;
    pile.put(
        1,
        extended(b, grown, column(grown, q.vertices), p.least),
        b.rows.saturating_mul(p.sum as u64),
    )
}

// The pile after a join; one with too few results stays.
fn after_join(q: Query, pile: Pile) -> Pile
    requires { Drawable q × (pile.depth ≤ max_operators) }
    ensures { (g : Graph) → After g (query_in q) join pile result }
{
    if pile.depth < 2 {
        return pile;
    }
    let p = pile.under(0);
    let b = pile.under(1);
    let set = b.set | p.set;
    pile.put(
        2,
        joined(
            b,
            p,
            column(b.set, q.vertices),
            set,
            column(set, q.vertices),
        ),
        0,
    )
}

// The pile after an operator.
fn after(store: &[u32], q: Query, o: Operator, pile: Pile) -> Pile
    requires { Drawable q × (store_fault store.now ≡ 0) × (named (query_in q) (operator_is o) ≡ true)
        × (pile.depth < max_operators) }
    ensures { After (graph_in store.now) (query_in q) (operator_is o) pile result }
{
    match o {
        Operator::Scan(i) => after_scan(store, q, i, pile),
        Operator::Extend(v) => after_extend(store, q, v, pile),
        Operator::Join => after_join(q, pile),
    }
}

// The pile after all operators.
fn whole(store: &[u32], q: Query, plan: Plan) -> Pile
    requires { Drawable q × (store_fault store.now ≡ 0) × (plan.operators ≤ max_operators)
        × (all (named (query_in q)) (operators_in plan) ≡ true) }
    ensures { Piled (bounds_after (graph_in store.now) (query_in q) [] (operators_in plan))
        (step_bounds (graph_in store.now) (query_in q) [] (operators_in plan)) result
        × (result.depth ≤ max_operators) }
{
    let mut pile = Pile::none();
    for i in 0..plan.operators {
        pile = after(store, q, plan.operator(i), pile);
    }
    pile
}

// The four numbers of a query and a plan that were read, over an accepted store.
pub fn answer(store: &[u32], q: Query, plan: Plan) -> BoundsAnswer
    requires { Drawable q × (store_fault store.now ≡ 0) × (plan.operators ≤ max_operators)
        × (all (named (query_in q)) (operators_in plan) ≡ true) }
    ensures { Numbers (graph_in store.now) (query_in q) (operators_in plan) result }
{
    let pile = whole(store, q, plan);
    if pile.depth < 1 {
        return BoundsAnswer {
            refusal: 0,
            list_words: 0,
            scratch_words: 0,
            cost: pile.cost,
            largest: pile.largest,
        };
    }
    let b = pile.under(0);
    BoundsAnswer {
        refusal: 0,
        list_words: (q.vertices as u64).saturating_mul(b.rows),
        scratch_words: b.need,
        cost: pile.cost,
        largest: pile.largest,
    }
}
