// What a query is: a small labelled graph whose vertices are to be matched (document 01, 'The three packed
// files'; 000, section 2; document 02, requests 6 and 7). `specs/` says what a query file holds and when
// it is refused, `proofs/` has the laws; here are the query as a struct and sets of its vertices.
// `query_file` reads a file; what a match is stands in `matching`.
#![tactic(auto)]

ghost use Rattle.std.specs.Prelude.{◌≡◌, not, ◌&&◌, map, ℕ, ◌≤◌, ◌<◌, eqb, get_or};
ghost use Rattle.lists.specs.Lists.{range, any};
ghost use Rattle.refusals.specs.Inner.Refusals.{fault_of};
ghost use Rattle.lists.specs.Refusal.{refuse};
ghost use Rattle.graph.specs.Graph.{max_day};
ghost use Rattle.query.specs.Query.{Pair, edge_at, paired, among, between, reached, connected};
ghost use Rattle.query.specs.File.{max_vertices, max_edges, max_pairs};
ghost use Rattle.query.specs.Answer.{struct_of, no_query};
ghost use Rattle.query.specs.Inner.Struct.{edge_struct, as_edge, pair_with, query_in, Held, filter_of};
ghost use Rattle.query.specs.Inner.Mask.{in_mask, MaskOf, only, neighbours, with_neighbours};

use graph::Graph;
use refusals::Refusal;

pub mod set;

// An edge of a query.
#[derive(Clone, Copy)]
pub struct Edge {
    // The query vertex that it starts from.
    pub source: usize,
    // The one that it leads to.
    pub target: usize,
    // Its label, 0 for any.
    pub label: u32,
}

// What a query vertex asks of a data vertex.
#[derive(Clone, Copy)]
pub struct Filter {
    // Its label, 0 for any.
    pub label: u32,
    // Its day is no earlier.
    pub first: u32,
    // Nor later.
    pub last: u32,
    // Whether every day is in that range.
    pub any_day: bool,
}

// A query, field by field; every number past the last of a kind is 0. The fields are those of the definition
// `struct_of`, and an array has room for the most that a query may have: nothing here takes memory.
#[derive(Clone, Copy)]
pub struct Query {
    // n, how many vertices it has.
    pub vertices: usize,
    // m, how many edges.
    pub edges: usize,
    // The label of each vertex, 0 for any.
    pub labels: [u32; Query::MAX_VERTICES],
    // The first day of each vertex's range.
    pub firsts: [u32; Query::MAX_VERTICES],
    // The last one.
    pub lasts: [u32; Query::MAX_VERTICES],
    // The vertex that each edge starts from.
    pub sources: [u32; Query::MAX_EDGES],
    // The one that it leads to.
    pub targets: [u32; Query::MAX_EDGES],
    // The label of each edge, 0 for any.
    pub edge_labels: [u32; Query::MAX_EDGES],
    // How many pairs there are.
    pub pairs: usize,
    // Of each pair the vertex whose data vertex is to be the lower one.
    pub lows: [u32; Query::MAX_PAIRS],
    // The other.
    pub highs: [u32; Query::MAX_PAIRS],
}

// What Read query answers: a refusal with a query of zeros, or 0 with the query.
#[derive(Drop)]
pub struct ReadQuery {
    // 0 where the file is accepted. A number, as the definition `read_answer` gives it.
    pub refusal: u32,
    // The query, of zeros where it is not.
    pub query: Query,
}

impl Query {
    pub const MIN_VERTICES: usize = 2;

    pub const MAX_VERTICES: usize = 8;

    pub const MIN_EDGES: usize = 1;

    pub const MAX_EDGES: usize = 24;

    pub const MAX_PAIRS: usize = 15;

    // The query of zeros.
    pub fn none() -> Self
        ensures { result ≡ struct_of no_query }
    {
        Query {
            vertices: 0,
            edges: 0,
            labels: [0; Query::MAX_VERTICES],
            firsts: [0; Query::MAX_VERTICES],
            lasts: [0; Query::MAX_VERTICES],
            sources: [0; Query::MAX_EDGES],
            targets: [0; Query::MAX_EDGES],
            edge_labels: [0; Query::MAX_EDGES],
            pairs: 0,
            lows: [0; Query::MAX_PAIRS],
            highs: [0; Query::MAX_PAIRS],
        }
    }

    // The edge of an index below m.
    pub fn edge(self, i: usize) -> Edge
        requires { (i < self.edges) × (self.edges ≤ max_edges) }
        ensures { result ≡ edge_struct (edge_at (query_in self) i) }
    {
        Edge {
            source: self.sources[i] as usize,
            target: self.targets[i] as usize,
            label: self.edge_labels[i],
        }
    }

    // What a vertex asks.
    pub fn filter(self, w: usize) -> Filter
        requires { w < max_vertices }
        ensures { result ≡ filter_of self w }
    {
        let first = self.firsts[w];
        let last = self.lasts[w];
        Filter {
            label: self.labels[w],
            first,
            last,
            any_day: whole(first, last),
        }
    }

    // The set of the vertices that a query edge joins to v, in either direction.
    pub fn adjacent(self, v: usize) -> u32
        requires { Held self }
        ensures { MaskOf result (neighbours (query_in self) v) }
    {
        let mut found = 0;
        for i in 0..self.edges {
            found |= other_end(self.edge(i), v);
        }
        found
    }

    // The vertices whose data vertices are to be below that of v.
    pub fn pair_lows(self, v: usize) -> u32
        requires { Held self × (v < max_vertices) }
        ensures { MaskOf result (λ (w : ℕ). paired (query_in self) w v) }
    {
        pair_ends(&self.lows, &self.highs, self.pairs, v)
    }

    // The vertices whose data vertices are to be above that of v.
    pub fn pair_highs(self, v: usize) -> u32
        requires { Held self × (v < max_vertices) }
        ensures { MaskOf result (λ (w : ℕ). paired (query_in self) v w) }
    {
        pair_ends(&self.highs, &self.lows, self.pairs, v)
    }

    // The vertices of a set with those that an edge joins to it: one step of reaching.
    fn reach(self, set: u32) -> u32
        requires { Held self }
        ensures { MaskOf result (with_neighbours (query_in self) (in_mask set) self.vertices) }
    {
        let mut next = set;
        for w in 0..self.vertices {
            if self.adjacent(w) & set != 0 {
                next |= set::only(w);
            }
        }
        next
    }

    // The vertices that n steps lead to from vertex 0.
    fn reached(self) -> u32
        requires { Held self }
        ensures { MaskOf result (among (reached (query_in self) self.vertices)) }
    {
        let mut seen = set::only(0);
        for _step in 0..self.vertices {
            seen = self.reach(seen);
        }
        seen
    }

    // Refuses a query that is not connected.
    pub fn check_connected(self) -> Result<(), Refusal>
        requires { Held self }
        ensures { fault_of result ≡ refuse 11 (not (connected (query_in self))) }
    {
        if set::minus(set::below(self.vertices), self.reached()) != 0 {
            return Err(Refusal::QueryApart);
        }
        Ok(())
    }
}

// The days from a first to a last are all.
fn whole(first: u32, last: u32) -> bool
    ensures { result ≡ (eqb first 0 && eqb last max_day) }
{
    first == 0 && last == Graph::MAX_DAY
}

// The set of the edge's other end, where v is one of its ends; else the empty set.
fn other_end(e: Edge, v: usize) -> u32
    requires { (e.source < 32) × (e.target < 32) }
    ensures { MaskOf result (λ (w : ℕ). between v (only w) (as_edge e)) }
{
    if e.source == v {
        set::only(e.target)
    } else if e.target == v {
        set::only(e.source)
    } else {
        0
    }
}

// The set of one vertex of a pair, where v is the other; else the empty set.
fn pair_end(one: u32, other: u32, v: usize) -> u32
    requires { one < 32 }
    ensures { MaskOf result (λ (w : ℕ). eqb one w && eqb other v) }
{
    if other as usize == v {
        set::only(one as usize)
    } else {
        0
    }
}

// Of the first pairs, given by one end and the other, the one end of each whose other is v.
fn pair_ends(
    ones: &[u32; Query::MAX_PAIRS],
    others: &[u32; Query::MAX_PAIRS],
    pairs: usize,
    v: usize,
) -> u32
    requires { (pairs ≤ max_pairs) × ((i : ℕ) → i < pairs → get_or ones.now i 0 < 32) }
    ensures { MaskOf result (λ (w : ℕ). any (λ (p : Pair). eqb p.low w && eqb p.high v)
        (map (pair_with ones.now others.now) (range pairs))) }
{
    let mut found = 0;
    for i in 0..pairs {
        found |= pair_end(ones[i], others[i], v);
    }
    found
}
