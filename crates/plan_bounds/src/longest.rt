// The longest portions of an extend's query edges: the least and the sum of them.
ghost use Rattle.std.specs.Prelude.{◌≡◌, List, [], ◌∷◌, ◌++◌, ℕ, suc, ◌+◌, ◌*◌, ◌/◌, ◌≤◌, ◌<◌};
ghost use Rattle.lists.specs.Lists.{bit, count_if};
ghost use Rattle.graph.specs.Graph.{Edge as EdgeDef, max_edge_label, max_graph_edges, entry_span, Direction};
ghost use Rattle.graph.specs.Graph.{covers, portion_length};
ghost use Rattle.graph.specs.Store.{graph_in, store_fault};
ghost use Rattle.query.specs.Query.{between};
ghost use Rattle.query.specs.File.{max_edges};
ghost use Rattle.query.specs.Inner.Struct.{as_edge, query_in};
ghost use Rattle.query.specs.Inner.Mask.{in_mask};
ghost use Rattle.plan_order.specs.Order.{edges_of};
ghost use Rattle.plan_order.specs.Inner.Counts.{Drawable};
ghost use Rattle.adjacency.specs.Inner.Side.{side_in, Lookup};
ghost use Rattle.plan_bounds.specs.Bounds.{longest_portion, longest_for, least_portion, sum_of_portions};
ghost use Rattle.plan_bounds.specs.Inner.Held.{Sided, Counts, Seen};

use adjacency::neighbours;
use graph::Graph;
use query::{Edge, Query, set};

// What was seen of the longest portions of an extend's query edges.
#[derive(Drop)]
pub struct Portions {
    // How many.
    pub count: usize,
    // The least of their lengths.
    pub least: usize,
    // Their lengths together.
    pub sum: usize,
}

impl Portions {
    fn none() -> Self
        ensures { Seen [] result × (result.count ≡ 0) × (result.sum ≡ 0) }
    {
        Portions {
            count: 0,
            least: 0,
            sum: 0,
        }
    }

    // With one more.
    fn with(self, length: usize) -> Self
        requires { (self.count < max_edges) × (self.sum ≤ max_edges * max_graph_edges)
            × (length ≤ max_graph_edges) }
        ensures { ((lengths : List ℕ) → Seen lengths self → Seen (lengths ++ (length ∷ [])) result)
            × (result.count ≡ self.count + 1) × (result.sum ≡ self.sum + length) }
    {
        Portions {
            count: self.count + 1,
            least: if self.count == 0 {
                length
            } else {
                self.least.min(length)
            },
            sum: self.sum + length,
        }
    }
}

// How many entries of a list a label covers. The sum takes no branch.
fn covered(list: &[u32], label: u32) -> usize
    ensures { result ≡ count_if (λ (k : ℕ). covers label (k / entry_span)) list.now }
{
    if label == 0 {
        return list.len();
    }
    let mut count = 0;
    for &entry in list {
        count += (entry / Graph::SPAN == label) as usize;
    }
    count
}

// The length of a vertex's portion for a label. Its entries are counted: `adjacency::portion` is left to the
// rows of a run, and the compiler makes it a part of the function that looks these up.
fn portion_length(store: &[u32], n: usize, side: usize, v: usize, label: u32) -> usize
    requires { Lookup store.now n side v }
    ensures { (d : Direction) → side ≡ side_in d store.now
        → result ≡ portion_length (graph_in store.now) d label v }
{
    covered(neighbours(store, n, side, v), label)
}

// The longest portion that any vertex has for a label on a side. A vertex whose whole list is no longer than
// the longest so far is passed over.
fn longest(store: &[u32], n: usize, side: usize, label: u32) -> usize
    requires { Sided store.now n side × (label < suc max_edge_label) }
    ensures { (d : Direction) → side ≡ side_in d store.now
        → result ≡ longest_portion (graph_in store.now) d label }
{
    let mut most = 0;
    for v in 0..n {
        if most < neighbours(store, n, side, v).len() {
            most = most.max(portion_length(store, n, side, v, label));
        }
    }
    most
}

// The longest portion for a query edge between v and covered vertices: from its covered end, towards v.
fn longest_for(store: &[u32], g: Graph, e: Edge, v: usize) -> usize
    requires { Counts store.now g × (e.label < suc max_edge_label) }
    ensures { (result ≡ longest_for (graph_in store.now) v (as_edge e)) × (result ≤ max_graph_edges) }
{
    if v == e.source {
        return longest(store, g.vertices, g.backward(), e.label);
    }
    longest(store, g.vertices, g.forward(), e.label)
}

// Whether the edge runs between v and the set, in either direction.
fn joins(e: Edge, v: usize, set: u32) -> bool
    requires { (e.source < 32) × (e.target < 32) }
    ensures { result ≡ between v (in_mask set) (as_edge e) }
{
    if e.source == v {
        return set::member(set, e.target);
    }
    if e.target == v {
        return set::member(set, e.source);
    }
    false
}

// The longest portions of the query edges between v and a set.
pub fn of_edges(store: &[u32], q: Query, v: usize, set: u32) -> Portions
    requires { Drawable q × (store_fault store.now ≡ 0) }
    ensures { (result.least ≡ least_portion (graph_in store.now) (query_in q) (in_mask set) v)
        × (result.sum ≡ sum_of_portions (graph_in store.now) (query_in q) (in_mask set) v) }
{
    let g = Graph::of_store(store);
    let mut seen = Portions::none();
    for i in 0..q.edges {
        let e = q.edge(i);
        if joins(e, v, set) {
            seen = seen.with(longest_for(store, g, e, v));
        }
    }
    seen
}

// How many data edges a label has; label 0 counts them all.
pub fn edges_of(store: &[u32], label: u32) -> usize
    requires { (store_fault store.now ≡ 0) × (label < suc max_edge_label) }
    ensures { result ≡ edges_of (graph_in store.now) label }
{
    let g = Graph::of_store(store);
    let from = g.forward() + g.vertices + 1;
    covered(&store[from..from + g.edges], label)
}
