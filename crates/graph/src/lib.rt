// What a graph, its file and its store are (document 01, 'The three packed files' and 'The store';
// document 02, request 6), with refusals 1 to 5 and 19 as definitions in `specs/`, and the limits and
// places of a store as constants here. No file is read here: that is `graph_file`; `load` writes a store,
// `adjacency` reads it.
#![tactic(auto)]

ghost use Rattle.std.specs.Prelude.{◌≡◌, ◌+◌, ◌≤◌, length, get_or};
ghost use Rattle.graph.specs.Graph.{forward, backward};
ghost use Rattle.graph.specs.Store.{used_words};
ghost use Rattle.graph.specs.Inner.Side.{side_at};

// The counts of a graph, and where its words lie in a store: N, M, a label and then a day a vertex, and two
// sides. A side is N + 1 offsets followed by M entries; the forward side has the targets of each source, the
// backward side the sources of each target.
#[derive(Clone, Copy)]
pub struct Graph {
    // N.
    pub vertices: usize,
    // M.
    pub edges: usize,
}

impl Graph {
    pub const MAX_VERTICES: usize = 65535;

    // The number of no vertex.
    pub const NO_VERTEX: u32 = 65535;

    pub const MAX_EDGES: usize = 1048575;

    pub const MAX_VERTEX_LABEL: u32 = 65535;

    pub const MAX_DAY: u32 = 65535;
    // Edge labels are 1 to this.
    pub const MAX_EDGE_LABEL: usize = 255;
    // How many values the 8 bits of an edge's label have, 0 among them.
    pub const EDGE_LABELS: usize = Graph::MAX_EDGE_LABEL + 1;
    // The position of the vertices' labels in a store.
    pub const LABELS_AT: usize = 2;
    // An entry is label × SPAN + neighbour.
    pub const SPAN: u32 = 65536;
    // Entries are below this.
    pub const ENTRY_END: u32 = 16777216;

    // The counts that a store names in its first two words.
    pub fn of_store(store: &[u32]) -> Self
        requires { 2 ≤ length store.now }
        ensures { (result.vertices ≡ get_or store.now 0 0)
            × (result.edges ≡ get_or store.now 1 0) }
    {
        Graph {
            vertices: store[0] as usize,
            edges: store[1] as usize,
        }
    }

    // The position of the days.
    pub fn days(self) -> usize
        requires { self.vertices ≤ 4294967295 }
        ensures { result ≡ 2 + self.vertices }
    {
        Graph::LABELS_AT + self.vertices
    }

    // The position of the forward side.
    pub fn forward(self) -> usize
        requires { self.vertices ≤ 4294967295 }
        ensures { result ≡ side_at forward self.vertices self.edges }
    {
        2 + 2 * self.vertices
    }

    // The position of the backward side.
    pub fn backward(self) -> usize
        requires { (self.vertices ≤ 4294967295) × (self.edges ≤ 4294967295) }
        ensures { result ≡ side_at backward self.vertices self.edges }
    {
        3 + 3 * self.vertices + self.edges
    }

    // The words that are used.
    pub fn words(self) -> usize
        requires { (self.vertices ≤ 4294967295) × (self.edges ≤ 4294967295) }
        ensures { result ≡ used_words self.vertices self.edges }
    {
        4 + 4 * self.vertices + 2 * self.edges
    }
}
