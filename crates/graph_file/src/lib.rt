// The graph file read: N (16 bits), M (20), N vertices of label (16) and day (16), then M edges of source
// (16), label (8), target (16); and its faults, 1 to 5 (document 01, 'The three packed files'). What they
// mean stands in `graph`; the store is written by `load`.
#![tactic(auto)]

ghost use Rattle.std.specs.Prelude.{◌≡◌, suc, ◌+◌, ◌*◌, ◌≤◌, ◌<◌, length};
ghost use Rattle.graph.specs.Graph.{max_graph_vertices, max_graph_edges, max_edge_label, entry_end, forward, entry};
ghost use Rattle.graph.specs.Graph.{key};
ghost use Rattle.graph.specs.File.{vertex_count, edge_count, file_size, edge_in, graph_fault};
ghost use Rattle.graph.specs.Store.{load_fault};
ghost use Rattle.graph_file.specs.Inner.Reading.{Whole, vertex_field, edge_with, graph_length_fault};
ghost use Rattle.graph_file.specs.Inner.Reading.{graph_edges_fault};
ghost use Rattle.refusals.specs.Inner.Refusals.{fault_of};

use graph::Graph;
use packed::field;
use refusals::Refusal;

pub fn vertex_count(file: &[u8]) -> usize
    requires { 5 ≤ length file.now }
    ensures { (result ≡ vertex_count file.now) × (result < suc max_graph_vertices) }
{
    field(file, 0, 16) as usize
}

pub fn edge_count(file: &[u8]) -> usize
    requires { 5 ≤ length file.now }
    ensures { (result ≡ edge_count file.now) × (result < suc max_graph_edges) }
{
    field(file, 16, 20) as usize
}

// The bit position of edge i in a file of n vertices, as bit 4 of a byte.
fn edge_start(n: usize, i: usize) -> usize
    requires { (n < suc max_graph_vertices) × (i < suc max_graph_edges) }
    ensures { result ≡ 36 + 32 * n + 40 * i }
{
    8 * (4 + 4 * n + 5 * i) + 4
}

// A file that is not shorter than its own size, with the counts that stand in it.
#[derive(Clone, Copy)]
pub struct GraphFile<'a> {
    pub bytes: &'a [u8],
    // N and M.
    pub graph: Graph,
    pub ghost whole: { Whole bytes.now graph.vertices },
    pub ghost counted: { graph.edges ≡ edge_count bytes.now },
}

impl<'a> GraphFile<'a> {
    // Where a vertex has its label and its day, in bytes past its start.
    pub const LABEL: usize = 0;

    pub const DAY: usize = 2;

    // What a file of that size holds.
    pub fn of(file: &'a [u8]) -> Self
        requires { (5 ≤ length file.now) × (file_size file.now ≤ length file.now) }
        ensures { (result.bytes.now ≡ file.now)
            × (result.graph.vertices ≡ vertex_count file.now)
            × (result.graph.edges ≡ edge_count file.now) }
    {
        GraphFile {
            bytes: file,
            graph: Graph {
                vertices: vertex_count(file),
                edges: edge_count(file),
            },
        }
    }

    // The label or the day of vertex v. Both begin at bit 4 of a byte: so written, that byte takes no
    // division.
    pub fn vertex_field(self, offset: usize, v: usize) -> u32
        requires { (offset ≤ 2) × (v < self.graph.vertices) }
        ensures { result ≡ vertex_field self.entry.bytes.now offset v }
    {
        field(self.bytes, 8 * (4 + 4 * v + offset) + 4, 16)
    }

    pub fn source(self, i: usize) -> u32
        requires { i < self.graph.edges }
        ensures { (result ≡ (edge_in self.entry.bytes.now i).source) × (result < suc max_graph_vertices) }
    {
        field(self.bytes, edge_start(self.graph.vertices, i), 16)
    }

    // The entry of edge i on the forward side: its label and its target, which are 24 bits together.
    pub fn forward_entry(self, i: usize) -> u32
        requires { i < self.graph.edges }
        ensures { (result ≡ entry forward (edge_in self.entry.bytes.now i)) × (result < entry_end) }
    {
        field(self.bytes, edge_start(self.graph.vertices, i) + 16, 24)
    }

    pub fn label(self, i: usize) -> u32
        requires { i < self.graph.edges }
        ensures { (result ≡ (edge_in self.entry.bytes.now i).label) × (result < suc max_edge_label) }
    {
        self.forward_entry(i) / Graph::SPAN
    }
}

// Refuses a file that is shorter than 5 bytes or than its own size, and one that is longer or has a fill bit
// set.
fn check_length(file: &[u8]) -> Result<(), Refusal>
    ensures { fault_of result ≡ graph_length_fault file.now }
{
    if file.len() < 5 {
        return Err(Refusal::GraphShort);
    }
    let n = vertex_count(file);
    let m = edge_count(file);
    let size = 5 + 4 * n + 5 * m;
    if file.len() < size {
        return Err(Refusal::GraphShort);
    }
    if size < file.len() || packed::fill_set(file, edge_start(n, m)) {
        return Err(Refusal::GraphLong);
    }
    Ok(())
}

// (source, label, target) as one number, of a source and a forward entry.
fn edge_key(s: u32, e: u32) -> u64
    requires { e < entry_end }
    ensures { result ≡ key forward (edge_with s e) }
{
    s as u64 * Graph::ENTRY_END as u64 + e as u64
}

// Refuses the first edge at fault. `least` is one more than the key of the edge before. The tests stand in
// the loop, so that each is a branch that is never taken.
fn check_edges(file: GraphFile) -> Result<(), Refusal>
    ensures { fault_of result ≡ graph_edges_fault file.entry.bytes.now }
{
    let mut least = 0;
    let n = file.graph.vertices;
    for i in 0..file.graph.edges {
        let s = file.source(i);
        let e = file.forward_entry(i);
        if n <= s as usize || n <= (e % Graph::SPAN) as usize || e / Graph::SPAN == 0 {
            return Err(Refusal::GraphEdge);
        }
        let key = edge_key(s, e);
        if key < least {
            return Err(Refusal::GraphOrder);
        }
        least = key + 1;
    }
    Ok(())
}

// Refuses the first fault of a graph file.
fn check_graph(file: &[u8]) -> Result<(), Refusal>
    ensures { fault_of result ≡ graph_fault file.now }
{
    check_length(file)?;
    check_edges(GraphFile::of(file))
}

// Load's refusal of a file or of a store of so many words.
pub fn check_load(file: &[u8], room: usize) -> Result<(), Refusal>
    ensures { fault_of result ≡ load_fault file.now room }
{
    check_graph(file)?;
    if room < GraphFile::of(file).graph.words() {
        return Err(Refusal::StoreSmall);
    }
    Ok(())
}
