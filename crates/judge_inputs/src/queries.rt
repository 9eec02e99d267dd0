// A query of up to eight vertices. A set of vertices is a word, with a bit for each.
ghost use Rattle.std.specs.Prelude.{◌<◌};

use crate::bits::*;
use crate::graphs;
use crate::graphs::Graph;
use crate::random::Random;

const CELL_COUNT: usize = 256;

const MAX_EDGES: usize = 24;

const MAX_PAIRS: usize = 15;

// The first and the last day of each range.
const FIRST_DAYS: [usize; 8] = [0, 0, 0, 0, 1, 9447, 9448, 9448];

const LAST_DAYS: [usize; 8] = [65535, 65534, 9447, 0, 65535, 9448, 65535, 9448];

// The set of one vertex.
pub fn only(v: usize) -> usize {
    1usize << (v % 8)
}

// A query edge. Of the four labels, 0 is any label, and the others are the graph's first three.
#[derive(Clone, Copy)]
pub struct Edge {
    pub source: usize,
    pub target: usize,
    pub label: usize,
}

impl Edge {
    // The edge of a cell.
    pub fn of(number: usize) -> Self {
        Edge {
            source: number / 32 % 8,
            target: number / 4 % 8,
            label: number % 4,
        }
    }

    fn number(self) -> usize
        ensures { result < 256 }
    {
        self.source % 8 * 32 + self.target % 8 * 4 + self.label % 4
    }

    // An edge between two vertices, in either direction.
    fn random(a: usize, b: usize, random: &mut Random) -> Self {
        let most = random.below(3);
        let label = random_label(most, random);
        if random.chance(50) {
            Edge {
                source: a,
                target: b,
                label,
            }
        } else {
            Edge {
                source: b,
                target: a,
                label,
            }
        }
    }

    // The set of its ends.
    pub fn ends(self) -> usize {
        only(self.source) | only(self.target)
    }

    // The other end of an edge at v.
    pub fn other_end(self, v: usize) -> Option<usize> {
        if self.source == v {
            Some(self.target)
        } else if self.target == v {
            Some(self.source)
        } else {
            None
        }
    }

    // The label that the file has for it.
    fn label_in_file(self) -> usize {
        if self.label == 0 {
            0
        } else {
            graphs::edge_label(self.label - 1)
        }
    }

    // The graph has the edge between two places.
    pub fn is_in(self, g: &Graph, source: usize, target: usize) -> bool {
        if self.label == 0 {
            (0..4usize).any(|l| g.has(source, l, target))
        } else {
            g.has(source, self.label - 1, target)
        }
    }

    // How many edges the graph has for it between two places.
    pub fn count_in(self, g: &Graph, source: usize, target: usize) -> usize {
        if self.label == 0 {
            (0..4usize).filter(|l| g.has(source, *l, target)).count()
        } else {
            g.has(source, self.label - 1, target) as usize
        }
    }
}

// The index of a label: that of any, in a fifth, or one of a few.
fn random_label(most: usize, random: &mut Random) -> usize {
    if random.chance(20) {
        0
    } else {
        random.below(most.wrapping_add(1)).wrapping_add(1) % 4
    }
}

#[derive(Clone, Copy)]
pub struct Query {
    pub vertices: usize,
    pub edges: usize,
    // How many pairs there are.
    pub pairs: usize,
    // Two bits for each vertex choose its label, and three its range of days; 0 chooses the whole range.
    label_bits: usize,
    range_bits: usize,
    // For each vertex, the set of those next to it.
    next_to: [usize; 8],
    // The edges in the file's order, when it is written.
    list: [Edge; 32],
    // For each source, target and label whether the edge is there, and for each low and high vertex whether
    // the pair is.
    cells: [bool; CELL_COUNT],
    pair_cells: [bool; 64],
}

impl Query {
    // So many vertices, and no edges.
    pub fn of(vertices: usize) -> Self {
        Query {
            vertices,
            edges: 0,
            pairs: 0,
            label_bits: 0,
            range_bits: 0,
            next_to: [0; 8],
            list: [Edge::of(0); 32],
            cells: [false; CELL_COUNT],
            pair_cells: [false; 64],
        }
    }

    // A random connected query; three of four are made of edges of the graph.
    pub fn random(g: &Graph, random: &mut Random) -> Self {
        let any = random.chance(25);
        let mut q = Query::of(random_vertices(g.places, any, random));
        q.label_bits = random_labels(random);
        q.range_bits = random_ranges(q.vertices, random);
        let mut drawing = Drawing::begin(q, g, any);
        drawing.join_vertices(random);
        drawing.draw_pairs(random);
        drawing.query
    }

    // The edge of an index.
    pub fn edge(&self, i: usize) -> Edge {
        self.list[i % 32]
    }

    // The edges in the file's order.
    pub fn list(&self) -> &[Edge] {
        &self.list[..self.edges.min(32)]
    }

    // The labels of the edges, a bit each: any label, then the graph's first three.
    fn named(&self) -> usize {
        let mut set = 0;
        for edge in self.list() {
            set |= 1usize << (edge.label % 4);
        }
        set
    }

    // The labels that the edges name, a bit each for the graph's first three; None where an edge is of any.
    pub fn named_labels(&self) -> Option<usize> {
        let named = self.named();
        if named % 2 == 1 {
            None
        } else {
            Some(named / 2)
        }
    }

    pub fn label(&self, v: usize) -> usize {
        graphs::vertex_label(self.label_bits, v)
    }

    // Some vertex has a range of days.
    pub fn has_ranges(&self) -> bool {
        self.range_bits != 0
    }

    fn range(&self, v: usize) -> usize {
        (self.range_bits >> (v % 8 * 3)) % 8
    }

    // The first and the last day that the item of a vertex may have.
    pub fn first_day(&self, v: usize) -> usize {
        FIRST_DAYS[self.range(v) % 8]
    }

    pub fn last_day(&self, v: usize) -> usize {
        LAST_DAYS[self.range(v) % 8]
    }

    // A vertex of the graph fits v: by its label, and by its day, which is 0 where it has none.
    pub fn fits(&self, v: usize, g: &Graph, place: usize) -> bool {
        let label = self.label(v);
        let day = g.day(place);
        (label == 0 || label == g.label(place))
            && self.first_day(v) <= day
            && day <= self.last_day(v)
    }

    // The item number of `low` must be below that of `high`.
    pub fn has_pair(&self, low: usize, high: usize) -> bool {
        self.pair_cells[low % 8 * 8 + high % 8]
    }

    // The set of the vertices that an edge joins to v.
    pub fn next_to(&self, v: usize) -> usize {
        self.next_to[v % 8]
    }

    // The query may get the edge: it joins two of its vertices, is not there, and is not one too many.
    fn may_get(&self, edge: Edge) -> bool {
        edge.source != edge.target
            && edge.source < self.vertices
            && edge.target < self.vertices
            && !self.cells[edge.number()]
            && self.edges < MAX_EDGES
    }

    // Adds an edge, if the query may get it.
    pub fn put_edge(&mut self, edge: Edge) {
        if self.may_get(edge) {
            self.cells[edge.number()] = true;
            self.edges = self.edges.wrapping_add(1);
            self.next_to[edge.source % 8] |= only(edge.target);
            self.next_to[edge.target % 8] |= only(edge.source);
        }
    }

    // Adds a pair, unless its vertices are equal, or it is there or one too many.
    fn put_pair(&mut self, low: usize, high: usize) {
        if low != high && !self.has_pair(low, high) && self.pairs < MAX_PAIRS {
            self.pairs += 1;
            self.pair_cells[low % 8 * 8 + high % 8] = true;
        }
    }

    // Lists and writes the edges.
    fn write_edges(&mut self, w: &mut Writer) {
        let mut listed = 0usize;
        for cell in 0..CELL_COUNT {
            if self.cells[cell] {
                let edge = Edge::of(cell);
                self.list[listed % 32] = edge;
                listed = listed.wrapping_add(1);
                w.put(3, edge.source);
                w.put(3, edge.target);
                w.put(8, edge.label_in_file());
            }
        }
    }

    // Lists the edges, writes the file over zeros, and answers the file's length in bytes.
    pub fn write(&mut self, file: &mut [u8]) -> usize {
        let mut w = Writer::new(file, 0);
        w.put(4, self.vertices);
        w.put(5, self.edges);
        for v in 0..self.vertices % 16 {
            w.put(16, self.label(v));
            w.put(16, self.first_day(v));
            w.put(16, self.last_day(v));
        }
        self.write_edges(&mut w);
        w.put(4, self.pairs);
        for (pair, there) in self.pair_cells.iter().enumerate() {
            if *there {
                w.put(6, pair);
            }
        }
        w.bytes()
    }
}

// A query that is being drawn over a graph, and where its vertices are.
#[derive(Drop)]
struct Drawing<'a> {
    query: Query,
    graph: &'a Graph,
    // An edge may be any; else the graph has it between the places of its ends.
    any: bool,
    row: [usize; 8],
    // A bit for each place is 1 where a vertex has it.
    taken: usize,
    // How many vertices have an edge yet.
    joined: usize,
}

impl<'a> Drawing<'a> {
    fn begin(query: Query, graph: &'a Graph, any: bool) -> Self {
        Drawing {
            query,
            graph,
            any,
            row: [0; 8],
            taken: 0,
            joined: 1,
        }
    }

    // Adds an edge if it will do; answers whether it did.
    fn try_edge(&mut self, edge: Edge, any: bool) -> bool {
        let source = self.row[edge.source % 8];
        let target = self.row[edge.target % 8];
        let does = any || edge.is_in(self.graph, source, target);
        if does {
            self.query.put_edge(edge);
        }
        does
    }

    // Gives the next vertex a place that none has yet, and an edge to one before it if the edge will do; or,
    // if the edge may be any, any place.
    fn join_vertex(&mut self, any: bool, random: &mut Random) {
        let v = self.joined;
        let k = random.below(self.graph.places);
        let before = random.below(v);
        let edge = Edge::random(before, v, random);
        let free = (self.taken >> (k % 16)) % 2 == 0;
        self.row[v % 8] = k;
        if (free || any) && self.try_edge(edge, any) {
            self.joined = v.wrapping_add(1);
            self.taken |= 1usize << (k % 16);
        }
    }

    // Step i: joins the next vertex, in every sixteenth step by any edge; or, where all are joined, adds an
    // edge so many times of a hundred.
    fn grow(&mut self, i: usize, more: usize, random: &mut Random) {
        let n = self.query.vertices;
        if self.joined < n {
            self.join_vertex(self.any || i % 16 == 15, random);
        } else if random.chance(more) {
            let a = random.below(n);
            let b = random.below(n);
            let edge = Edge::random(a, b, random);
            self.try_edge(edge, self.any);
        }
    }

    // Joins all vertices, then adds edges in up to a fifth of the steps.
    fn join_vertices(&mut self, random: &mut Random) {
        let more = random.below(20);
        let k = random.below(self.graph.places);
        self.row[0] = k;
        self.taken = 1usize << (k % 16);
        for i in 0..128usize {
            self.grow(i, more, random);
        }
    }

    // Adds a pair of two vertices in the order of their places, turned over so many times of a hundred.
    fn draw_pair(&mut self, turned: usize, random: &mut Random) {
        let a = random.below(self.query.vertices);
        let b = random.below(self.query.vertices);
        if (self.row[a % 8] < self.row[b % 8]) != random.chance(turned) {
            self.query.put_pair(a, b);
        } else {
            self.query.put_pair(b, a);
        }
    }

    // Pairs in every second query: a few, or, in an eighth, up to the most; in a fourth they may contradict
    // each other.
    fn draw_pairs(&mut self, random: &mut Random) {
        let few = random.below(3).wrapping_add(1);
        let count = if random.chance(12) { 48 } else { few };
        let turned = if random.chance(25) { 50 } else { 0 };
        if random.chance(50) {
            for _ in 0..count {
                self.draw_pair(turned, random);
            }
        }
    }
}

// Labels on a vertex or two of some queries.
fn random_labels(random: &mut Random) -> usize {
    let one = 1usize << (random.below(8) % 8 * 2);
    let other = 2usize << (random.below(8) % 8 * 2);
    random.pick([one, one | other, 0, 0, 0, 0])
}

// Ranges of days on some of n vertices, in every second query.
fn random_ranges(n: usize, random: &mut Random) -> usize {
    let words = 1usize << (n % 16 * 3);
    if random.chance(50) {
        return 0;
    }
    random.below(words) & random.below(words)
}

// 2 to 8 vertices; no more than so many places, unless edges may be any.
fn random_vertices(places: usize, any: bool, random: &mut Random) -> usize {
    let n = random.below(7).wrapping_add(2);
    if any || places < 2 { n } else { n.min(places) }
}
