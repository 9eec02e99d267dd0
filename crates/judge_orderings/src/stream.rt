// The stream of random cases: graphs, and queries of each.
use crate::calls::*;
use crate::model::Spectrum;
use crate::tallied::*;
use judge_inputs::graphs::Graph;
use judge_inputs::queries::Query;
use judge_inputs::random::Random;
use judge_matcher::lent::{FILE_BYTES, Files, LIST_WORDS, Store, graph_words};
use judge_matcher::stores::load_file;
use judge_matcher::tally::{GRAPHS, QUERIES, Tally};

// A second store with other edges of labels that the query does not name.
fn judge_others(
    g: &Graph,
    q: &Query,
    one: &Store,
    files: &Files,
    w: Lent,
    l: &Spectrum,
    random: &mut Random,
    tally: &mut Tally<impl Print>,
) {
    if let Some(labels) = q.named_labels() {
        let mut h = *g;
        let mut two = [0u32; LIST_WORDS];
        h.turn_others(labels, random);
        let words = graph_words(&h);
        load_file(&h, &mut two, words, tally);
        judge_stores(one, &two, files, w, l, words, random, tally);
    }
}

// A query of at most five vertices.
fn judge_small(
    g: &Graph,
    q: &Query,
    store: &Store,
    files: &Files,
    w: Lent,
    random: &mut Random,
    tally: &mut Tally<impl Print>,
) {
    if let Some(l) = Spectrum::of(g, q) {
        tally.count(SMALL, 1);
        tally.count(ORDERINGS, l.plans as u64);
        judge_all(store, files, w, &l, tally);
        judge_others(g, q, store, files, w, &l, random, tally);
    }
}

fn judge_query(
    g: &Graph,
    q: &mut Query,
    store: &Store,
    random: &mut Random,
    tally: &mut Tally<impl Print>,
) {
    let mut files = [0u8; FILE_BYTES];
    let w = Lent {
        store: graph_words(g),
        query: q.write(&mut files),
        scratch: 40,
        words: 864,
    };
    let large = 5 < q.vertices;
    tally.count(QUERIES, 1);
    judge_damaged(store, &files, w, large, tally);
    if large {
        tally.count(LARGE, 1);
        judge_refused(store, &files, w, 31, ORDER, tally);
    } else {
        judge_small(g, q, store, &files, w, random, tally);
    }
}

// Eight random queries of a random graph of up to nine places and three edge labels.
fn random_graph(random: &mut Random, tally: &mut Tally<impl Print>) {
    let mut store = [0u32; LIST_WORDS];
    let g = Graph::random(10, random);
    load_file(&g, &mut store, graph_words(&g), tally);
    tally.count(GRAPHS, 1);
    for _ in 0..8usize {
        let mut q = Query::random(&g, random);
        judge_query(&g, &mut q, &store, random, tally);
    }
}

pub fn judge_graphs(graphs: usize, random: &mut Random, tally: &mut Tally<impl Print>) {
    for _ in 0..graphs {
        random_graph(random, tally);
    }
}
