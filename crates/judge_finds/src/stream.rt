// The stream of random cases: graphs, and queries of each.
use crate::finds::{COUNT, judge_find};
use judge_inputs::graphs::Graph;
use judge_inputs::queries::Query;
use judge_inputs::random::Random;
use judge_matcher::lent::*;
use judge_matcher::stores::load_file;
use judge_matcher::tally::*;

// A random query of a loaded graph.
fn random_query(
    g: &Graph,
    store: &Store,
    words: usize,
    random: &mut Random,
    tally: &mut Tally<impl Print>,
) {
    let mut files = [0u8; FILE_BYTES];
    let mut q = Query::random(g, random);
    let bytes = q.write(&mut files);
    tally.count(QUERIES, 1);
    let with = Lent {
        store: words,
        query: bytes,
        plan: 8,
        cache: false,
        scratch: MAX_WORDS,
        list: MAX_WORDS,
        records: COUNT,
        width: q.vertices,
    };
    judge_find(store, &files, with, random, tally);
}

// A random graph, and four queries of it.
fn random_graph(random: &mut Random, tally: &mut Tally<impl Print>) {
    let mut store = [0u32; LIST_WORDS];
    let g = Graph::random(13, random);
    let words = graph_words(&g);
    load_file(&g, &mut store, words, tally);
    for _ in 0..4usize {
        random_query(&g, &store, words, random, tally);
    }
}

pub fn judge_graphs(graphs: usize, random: &mut Random, tally: &mut Tally<impl Print>) {
    for _ in 0..graphs {
        random_graph(random, tally);
    }
}
