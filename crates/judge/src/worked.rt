// The cases of document 01 that are not starred: 8 vertices or 24 edges read; 9 vertices, 1 vertex or 25
// edges give 8.
use crate::stream;
use judge_inputs::bits::{Writer, bytes_for};
use judge_inputs::graphs::Graph;
use judge_inputs::queries::{Edge, Query};
use judge_inputs::random::Random;
use judge_matcher::lent::*;
use judge_matcher::slices::first;
use judge_matcher::stores::load_graph;
use judge_matcher::tally::*;

// A query of n vertices and m edges: the first whose cells stand so far apart and that a query may have.
fn query_of(n: usize, m: usize, start: usize, apart: usize) -> Query {
    let mut cell = start;
    let mut q = Query::of(n);
    for _ in 0..64usize {
        if q.edges < m {
            q.put_edge(Edge::of(cell));
        }
        cell = cell.wrapping_add(apart);
    }
    q
}

// Over a graph of so many places and all edge labels, each edge drawn so many times of a hundred, the query
// reads and two plans list its matches.
fn judge_over(
    q: &Query,
    places: usize,
    percent: usize,
    random: &mut Random,
    tally: &mut Tally<impl Print>,
) {
    let mut store = [0u32; LIST_WORDS];
    let mut copy = *q;
    let g = Graph::draw(places, 4, percent, random);
    let words = load_graph(&g, &mut store, random, tally);
    let judged = stream::judge_query(&g, &mut copy, &store, words, random, tally);
    tally.judge(WORKED, judged);
}

// Over a graph of as many places as the query has vertices, and over one of a place more.
fn judge_accepted(
    q: &Query,
    edges: usize,
    percent: usize,
    random: &mut Random,
    tally: &mut Tally<impl Print>,
) {
    tally.judge(WORKED, q.edges == edges);
    judge_over(q, q.vertices, percent, random, tally);
    judge_over(q, q.vertices.wrapping_add(1), percent, random, tally);
}

// A file with the counts of n vertices and m edges, of the size that they take without pairs.
fn judge_refused(n: usize, m: usize, tally: &mut Tally<impl Print>) {
    let mut file = [0u8; FILE_BYTES];
    let mut w = Writer::new(&mut file, 0);
    w.put(4, n);
    w.put(5, m);
    let bytes = bytes_for(13 + n % 16 * 48 + m % 32 * 14);
    let refusal = query_file::read_query(first(&file, bytes)).refusal;
    tally.judge(WORKED, refusal == 8);
}

pub fn judge_cases(random: &mut Random, tally: &mut Tally<impl Print>) {
    // The path through 8 vertices.
    judge_accepted(&query_of(8, 7, 5, 36), 7, 30, random, tally);
    // All edges of three labels and of any from vertices 0 and 1 of four.
    judge_accepted(&query_of(4, 24, 0, 1), 24, 100, random, tally);
    judge_refused(9, 9, tally);
    judge_refused(1, 1, tally);
    judge_refused(8, 25, tally);
}
