// The operation Read query, refusals 6 to 11, 25 and 26 (document 01, 'Operations and their refusals'): n
// (4 bits), m (5), n vertices of label (16), first day (16), last day (16), then m edges of from (3), to
// (3), label (8), then a pair count (4) and pairs of low (3), high (3). What the fields mean stands in
// `query`.
#![tactic(auto)]

ghost use Rattle.std.specs.Prelude.{◌≡◌, false, map, ◌+◌, ◌*◌, ◌^◌, ◌≤◌, ◌<◌, length};
ghost use Rattle.refusals.specs.Inner.Refusals.{fault_of};
ghost use Rattle.lists.specs.Lists.{range};
ghost use Rattle.packed.specs.Field.{bits_in};
ghost use Rattle.query.specs.File.{max_vertices, max_edges, max_pairs, vertex_count, edge_count, pair_count};
ghost use Rattle.query.specs.File.{edge_start, pair_start, outside_limits, query_of, query_fault};
ghost use Rattle.query_file.specs.Inner.Parts.{part_field, Readable};
ghost use Rattle.query.specs.Answer.{padded, struct_of, read_answer};

use packed::field;
use query::{Query, ReadQuery};
use refusals::Refusal;

mod faults;

fn vertex_count(file: &[u8]) -> usize
    requires { 2 ≤ length file.now }
    ensures { result ≡ vertex_count file.now }
{
    field(file, 0, 4) as usize
}

fn edge_count(file: &[u8]) -> usize
    requires { 2 ≤ length file.now }
    ensures { result ≡ edge_count file.now }
{
    field(file, 4, 5) as usize
}

// A query file whose counts are within their limits, with these.
#[derive(Clone, Copy)]
struct QueryFile<'a> {
    bytes: &'a [u8],
    // n.
    vertices: usize,
    // m.
    edges: usize,
    ghost counted: { (vertices ≡ vertex_count bytes.now) × (edges ≡ edge_count bytes.now) },
    ghost limited: { (vertices ≤ max_vertices) × (edges ≤ max_edges) },
}

impl<'a> QueryFile<'a> {
    fn of(bytes: &'a [u8]) -> Self
        requires { (2 ≤ length bytes.now) × (outside_limits bytes.now ≡ false) }
        ensures { (result.bytes.now ≡ bytes.now) × (result.vertices ≡ vertex_count bytes.now)
            × (result.edges ≡ edge_count bytes.now) }
    {
        QueryFile {
            bytes,
            vertices: vertex_count(bytes),
            edges: edge_count(bytes),
        }
    }

    // The bit position of edge i.
    fn edge_start(self, i: usize) -> usize
        requires { i ≤ max_edges }
        ensures { result ≡ edge_start self.entry.bytes.now i }
    {
        9 + 48 * self.vertices + 14 * i
    }

    // The bit position of pair i.
    fn pair_start(self, i: usize) -> usize
        requires { i ≤ max_pairs }
        ensures { result ≡ pair_start self.entry.bytes.now i }
    {
        self.edge_start(self.edges) + 4 + 6 * i
    }

    // How many pairs follow the edges.
    fn pair_count(self) -> usize
        requires { pair_start self.bytes.now 0 ≤ bits_in self.bytes.now }
        ensures { (result ≡ pair_count self.entry.bytes.now) × (result ≤ max_pairs) }
    {
        field(self.bytes, self.edge_start(self.edges), 4) as usize
    }

    // A field of each of `count` parts of `step` bits, of which the first begins at bit position `at`:
    // `width` bits, `offset` bits past the part's start; 0 past the last part.
    fn fields<const N: usize>(
        self,
        at: usize,
        count: usize,
        step: usize,
        offset: usize,
        width: usize,
    ) -> [u32; N]
        requires { (offset + width ≤ step) × (width ≤ 25) × (count ≤ N) × (at + step * count < 2 ^ 32)
            × (at + step * count ≤ bits_in self.bytes.now) }
        ensures { result ≡ padded N (map (part_field self.entry.bytes.now at step offset width)
            (range count)) }
    {
        let mut a = [0u32; N];
        for i in 0..count {
            a[i] = field(self.bytes, at + step * i + offset, width);
        }
        a
    }
}

// The query that a file holds.
pub fn query_of(file: &[u8]) -> Query
    requires { Readable file.now }
    ensures { result ≡ struct_of (query_of file.now) }
{
    let file = QueryFile::of(file);
    let n = file.vertices;
    let m = file.edges;
    let at = file.edge_start(0);
    let labels = file.fields(9, n, 48, 0, 16);
    let firsts = file.fields(9, n, 48, 16, 16);
    let lasts = file.fields(9, n, 48, 32, 16);
    let sources = file.fields(at, m, 14, 0, 3);
    let targets = file.fields(at, m, 14, 3, 3);
    let edge_labels = file.fields(at, m, 14, 6, 8);
    let k = file.pair_count();
    let from = file.pair_start(0);
    let lows = file.fields(from, k, 6, 0, 3);
    let highs = file.fields(from, k, 6, 3, 3);
    Query {
        vertices: n,
        edges: m,
        labels,
        firsts,
        lasts,
        sources,
        targets,
        edge_labels,
        pairs: k,
        lows,
        highs,
    }
}

// Read query's refusal: 6, 8, 6, 7, 25, then by edge 9, 10, then by pair 26, then 11.
pub fn check_query(file: &[u8]) -> Result<(), Refusal>
    ensures { fault_of result ≡ query_fault file.now }
{
    faults::check_file(file)?;
    query_of(file).check_connected()
}

// Read query.
pub fn read_query(file: &[u8]) -> ReadQuery
    ensures { result ≡ read_answer file.now }
{
    match check_query(file) {
        Err(refusal) => ReadQuery {
            refusal: refusal.number(),
            query: Query::none(),
        },
        Ok(()) => ReadQuery {
            refusal: 0,
            query: query_of(file),
        },
    }
}
