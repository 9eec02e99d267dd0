// Which ordering is drawn for a query: the scan's edge by the data edges of each label, then one vertex
// after the other by its query edges to the covered ones (document 02, request 5; 000's query vertex
// orderings, section 3). The bytes of the drawn plan are `planner`'s; all orderings with their costs are
// `plan_spectrum`.
#![tactic(auto)]

ghost use Rattle.std.specs.Prelude.{◌≡◌, ℕ, ◌<◌, ltb, get_or};
ghost use Rattle.graph.specs.Store.{graph_in, store_fault};
ghost use Rattle.query.specs.Query.{edge_at, between};
ghost use Rattle.query.specs.Inner.Struct.{as_edge, query_in, Held};
ghost use Rattle.query.specs.Inner.Mask.{in_mask};
ghost use Rattle.plan_order.specs.Order.{chosen, degree, next_vertex};
ghost use Rattle.plan_order.specs.Inner.Counts.{label_counts, edge_counts, Entries, Drawable};

use graph::Graph;
use query::{Edge, Query, set};

// How many of the entries each label counts; label 0 counts them all.
fn count_labels(entries: &[u32]) -> [u32; Graph::EDGE_LABELS]
    requires { Entries entries.now }
    ensures { result ≡ label_counts entries.now }
{
    let mut counts = [0u32; Graph::EDGE_LABELS];
    for entry in entries {
        let label = (*entry / Graph::SPAN) as usize;
        counts[label] += 1;
    }
    counts[0] = entries.len() as u32;
    counts
}

// How many data edges each label has, by one walk of the forward entries.
pub fn edge_counts(store: &[u32]) -> [u32; Graph::EDGE_LABELS]
    requires { store_fault store.now ≡ 0 }
    ensures { result ≡ edge_counts (graph_in store.now) }
{
    let g = Graph::of_store(store);
    let from = g.forward() + g.vertices + 1;
    count_labels(&store[from..from + g.edges])
}

// The query edge whose label has the fewest data edges, the first of them.
pub fn scan_edge(q: Query, counts: &[u32; Graph::EDGE_LABELS]) -> usize
    requires { Drawable q }
    ensures { result ≡ chosen (λ (i j : ℕ). ltb (get_or counts.now (edge_at (query_in q) i).label 0)
        (get_or counts.now (edge_at (query_in q) j).label 0)) q.edges }
{
    let mut best = 0;
    let mut fewest = counts[q.edge(0).label as usize];
    for i in 1..q.edges {
        let count = counts[q.edge(i).label as usize];
        if count < fewest {
            best = i;
            fewest = count;
        }
    }
    best
}

// Whether the edge runs between v and the set, in either direction.
fn joins(e: Edge, v: usize, set: u32) -> bool
    requires { (e.source < 32) × (e.target < 32) }
    ensures { result ≡ between v (in_mask set) (as_edge e) }
{
    if e.source == v {
        return set::member(set, e.target);
    }
    if e.target == v {
        return set::member(set, e.source);
    }
    false
}

// How many query edges run between v and the set; 0 where v is in the set.
fn degree(q: Query, set: u32, v: usize) -> usize
    requires { Held q × (v < 32) }
    ensures { result ≡ degree (query_in q) (in_mask set) v }
{
    if set::member(set, v) {
        return 0;
    }
    let mut found = 0;
    for i in 0..q.edges {
        found += joins(q.edge(i), v, set) as usize;
    }
    found
}

// The vertex outside the set with the most query edges to it, the first of them.
pub fn next_vertex(q: Query, set: u32) -> usize
    requires { Drawable q }
    ensures { (result ≡ next_vertex (query_in q) (in_mask set)) × (result < q.vertices) }
{
    let mut best = 0;
    let mut most = degree(q, set, 0);
    for v in 1..q.vertices {
        let edges = degree(q, set, v);
        if most < edges {
            best = v;
            most = edges;
        }
    }
    best
}
