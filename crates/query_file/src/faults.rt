// The tests of a query file but the last, whether its query is connected: one function for each part of the
// file.
ghost use Rattle.std.specs.Prelude.{◌≡◌, ◌+◌, ◌*◌, ◌^◌, ◌≤◌, ◌<◌};
ghost use Rattle.refusals.specs.Inner.Refusals.{fault_of};
ghost use Rattle.packed.specs.Field.{bits_in};
ghost use Rattle.query.specs.File.{pair_count, vertex_start, edge_start, pair_start, key, pair_key};
ghost use Rattle.query_file.specs.Inner.Parts.{limits_fault, size_fault, sizes_fault, edge_from, pair_from};
ghost use Rattle.query_file.specs.Inner.Parts.{key_fault, pair_key_fault, query_days_fault, query_edges_fault};
ghost use Rattle.query_file.specs.Inner.Parts.{query_pairs_fault, query_file_fault};

use crate::{QueryFile, edge_count, vertex_count};
use packed::{bytes_for, field, fill_set};
use query::Query;
use refusals::Refusal;

// Refuses n or m outside its limits.
fn check_limits(n: usize, m: usize) -> Result<(), Refusal>
    ensures { fault_of result ≡ limits_fault n m }
{
    if n < Query::MIN_VERTICES
        || Query::MAX_VERTICES < n
        || m < Query::MIN_EDGES
        || Query::MAX_EDGES < m
    {
        return Err(Refusal::QueryLimits);
    }
    Ok(())
}

// Refuses a file that is shorter than its size in bits, and one that is longer or has a fill bit set.
#[tactic(auto, unfolding(lists::specs::Refusal::first))]
fn check_size(file: &[u8], bits: usize) -> Result<(), Refusal>
    requires { bits + 7 < 2 ^ 64 }
    ensures { fault_of result ≡ size_fault file.now bits }
{
    let size = bytes_for(bits);
    if file.len() < size {
        return Err(Refusal::QueryShort);
    }
    if size < file.len() || fill_set(file, bits) {
        return Err(Refusal::QueryLong);
    }
    Ok(())
}

// Refuses a file that ends before its pair count does; then one that is not of its size.
fn check_sizes(file: QueryFile) -> Result<(), Refusal>
    ensures { fault_of result ≡ sizes_fault file.entry.bytes.now }
{
    if file.bytes.len() < bytes_for(file.pair_start(0)) {
        return Err(Refusal::QueryShort);
    }
    check_size(file.bytes, file.pair_start(file.pair_count()))
}

// Refuses the first vertex whose first day is above its last.
fn check_days(file: QueryFile) -> Result<(), Refusal>
    requires { vertex_start file.vertices ≤ bits_in file.bytes.now }
    ensures { fault_of result ≡ query_days_fault file.entry.bytes.now file.entry.vertices }
{
    for w in 0..file.vertices {
        let first = field(file.bytes, 9 + 48 * w + 16, 16);
        let last = field(file.bytes, 9 + 48 * w + 32, 16);
        if last < first {
            return Err(Refusal::QueryDays);
        }
    }
    Ok(())
}

// (from, to, label) of the edge at a bit position, as one number: the three fields are adjacent.
fn edge_key(file: &[u8], at: usize) -> u32
    requires { at + 14 ≤ bits_in file.now }
    ensures { result ≡ key (edge_from file.now at) }
{
    field(file, at, 14)
}

// Refuses the edge at a bit position that has a vertex not below n or equal ends, and one whose key is below
// the least that ascends.
#[tactic(auto, unfolding(lists::specs::Refusal::first))]
fn check_edge(file: &[u8], at: usize, n: usize, least: u32) -> Result<(), Refusal>
    requires { (at + 14 ≤ bits_in file.now) × (at + 14 < 2 ^ 64) }
    ensures { fault_of result ≡ key_fault n least (edge_from file.now at) }
{
    let from = field(file, at, 3) as usize;
    let to = field(file, at + 3, 3) as usize;
    if n <= from || n <= to || from == to {
        return Err(Refusal::QueryEdge);
    }
    if edge_key(file, at) < least {
        return Err(Refusal::QueryOrder);
    }
    Ok(())
}

// Refuses the first edge at fault. `least` is one more than the last edge's key.
fn check_edges(file: QueryFile) -> Result<(), Refusal>
    requires { edge_start file.bytes.now file.edges ≤ bits_in file.bytes.now }
    ensures { fault_of result ≡ query_edges_fault file.entry.bytes.now file.entry.edges }
{
    let mut least = 0;
    for i in 0..file.edges {
        let at = file.edge_start(i);
        check_edge(file.bytes, at, file.vertices, least)?;
        least = edge_key(file.bytes, at) + 1;
    }
    Ok(())
}

// (low, high) of the pair at a bit position, as one number: the two fields are adjacent.
fn pair_key(file: &[u8], at: usize) -> u32
    requires { at + 6 ≤ bits_in file.now }
    ensures { result ≡ pair_key (pair_from file.now at) }
{
    field(file, at, 6)
}

// Refuses the pair at a bit position that has a vertex not below n, equal vertices or a key below the least
// that ascends.
fn check_pair(file: &[u8], at: usize, n: usize, least: u32) -> Result<(), Refusal>
    requires { (at + 6 ≤ bits_in file.now) × (at + 6 < 2 ^ 64) }
    ensures { fault_of result ≡ pair_key_fault n least (pair_from file.now at) }
{
    let low = field(file, at, 3) as usize;
    let high = field(file, at + 3, 3) as usize;
    if n <= low || n <= high || low == high || pair_key(file, at) < least {
        return Err(Refusal::QueryPair);
    }
    Ok(())
}

// Refuses the first pair at fault. `least` is one more than the last pair's key. Edges have a loop of
// their own: one loop for both would be lent the place, the test and the key as three closures.
fn check_pairs(file: QueryFile) -> Result<(), Refusal>
    requires { pair_start file.bytes.now (pair_count file.bytes.now) ≤ bits_in file.bytes.now }
    ensures { fault_of result ≡ query_pairs_fault file.entry.bytes.now
        (pair_count file.entry.bytes.now) }
{
    let k = file.pair_count();
    let mut least = 0;
    for i in 0..k {
        let at = file.pair_start(i);
        check_pair(file.bytes, at, file.vertices, least)?;
        least = pair_key(file.bytes, at) + 1;
    }
    Ok(())
}

// Refuses the first fault of a query file but that its query is not connected.
pub fn check_file(file: &[u8]) -> Result<(), Refusal>
    ensures { fault_of result ≡ query_file_fault file.now }
{
    if file.len() < 2 {
        return Err(Refusal::QueryShort);
    }
    check_limits(vertex_count(file), edge_count(file))?;
    let file = QueryFile::of(file);
    check_sizes(file)?;
    check_days(file)?;
    check_edges(file)?;
    check_pairs(file)
}
