// The stream of random cases: graphs, queries of each, and plans of each query; and queries of many joins
// over dense graphs.
use crate::calls::*;
use crate::model::{Bounds, Measures};
use crate::tallied::WIDE;
use judge_inputs::graphs;
use judge_inputs::graphs::Graph;
use judge_inputs::queries::{Edge, Query};
use judge_inputs::random::Random;
use judge_matcher::files::write_plan;
use judge_matcher::lent::{FILE_BYTES, Files, LIST_WORDS, PLAN, Store, graph_words};
use judge_matcher::slices::part;
use judge_matcher::stores::load_file;
use judge_matcher::tally::{GRAPHS, QUERIES, Tally};

// A random plan of a query whose file stands in zeros; over a second store too, if there is one, of so many
// words.
fn judge_plan(
    q: &Query,
    m: &Measures,
    one: &Store,
    two: &Store,
    files: &Files,
    with: Lent,
    others: Option<usize>,
    random: &mut Random,
    tally: &mut Tally<impl Print>,
) {
    let mut own = *files;
    let mut w = with;
    w.plan = write_plan(q, &mut own, random);
    let expected = Bounds::of(q, m, part(&own, PLAN, w.plan));
    judge_exact(one, &own, w, expected, tally);
    judge_damaged(one, &own, w, tally);
    if let Some(words) = others {
        judge_stores(one, two, &own, w, words, tally);
    }
}

// A second store with other edges of labels that a query does not name; answers its words, or None where the
// query names any label.
fn load_others(
    g: &Graph,
    q: &Query,
    two: &mut Store,
    random: &mut Random,
    tally: &mut Tally<impl Print>,
) -> Option<usize> {
    let labels = q.named_labels()?;
    let mut h = *g;
    h.turn_others(labels, random);
    let words = graph_words(&h);
    load_file(&h, two, words, tally);
    Some(words)
}

// So many random plans of a query.
fn judge_query(
    g: &Graph,
    q: &mut Query,
    m: &Measures,
    one: &Store,
    plans: usize,
    random: &mut Random,
    tally: &mut Tally<impl Print>,
) {
    let mut files = [0u8; FILE_BYTES];
    let mut two = [0u32; LIST_WORDS];
    let query = q.write(&mut files);
    let others = load_others(g, q, &mut two, random, tally);
    let with = Lent {
        store: graph_words(g),
        query,
        plan: 0,
    };
    tally.count(QUERIES, 1);
    for _ in 0..plans {
        judge_plan(q, m, one, &two, &files, with, others, random, tally);
    }
}

fn load(g: &Graph, store: &mut Store, tally: &mut Tally<impl Print>) {
    load_file(g, store, graph_words(g), tally);
    tally.count(GRAPHS, 1);
}

// Four random queries of a random graph.
fn random_graph(random: &mut Random, tally: &mut Tally<impl Print>) {
    let mut store = [0u32; LIST_WORDS];
    let g = Graph::random(13, random);
    load(&g, &mut store, tally);
    let m = Measures::of(&g);
    for _ in 0..4usize {
        let mut q = Query::random(&g, random);
        judge_query(&g, &mut q, &m, &store, 2, random, tally);
    }
}

// An edge between a vertex and one before it, in either direction, mostly of any label.
fn random_edge(v: usize, random: &mut Random) -> Edge {
    let u = random.below(v);
    let label = random.pick([0, 0, 0, 0, 0, 1, 2, 3]);
    if random.chance(50) {
        Edge {
            source: u,
            target: v,
            label,
        }
    } else {
        Edge {
            source: v,
            target: u,
            label,
        }
    }
}

// A tree of eight vertices: seven scans, joined, have it all.
fn random_tree(random: &mut Random) -> Query {
    let mut q = Query::of(8);
    for v in 1..8usize {
        q.put_edge(random_edge(v, random));
    }
    q
}

// A graph of fourteen places and all edge labels with most of its edges, drawn until its file has room.
fn draw_dense(random: &mut Random) -> Option<Graph> {
    for _ in 0..16usize {
        let percent = random.below(21).wrapping_add(80);
        let g = Graph::draw(14, 4, percent, random);
        if g.vertices % 65536 * 4 + g.edges % 65536 * 5 + 5 <= graphs::FILE_BYTES {
            return Some(g);
        }
    }
    None
}

// Trees over a dense graph.
fn dense_graph(random: &mut Random, tally: &mut Tally<impl Print>) {
    let mut store = [0u32; LIST_WORDS];
    if let Some(g) = draw_dense(random) {
        load(&g, &mut store, tally);
        let m = Measures::of(&g);
        for _ in 0..4usize {
            let mut q = random_tree(random);
            judge_query(&g, &mut q, &m, &store, 8, random, tally);
            tally.count(WIDE, 8);
        }
    }
}

pub fn judge_graphs(graphs: usize, random: &mut Random, tally: &mut Tally<impl Print>) {
    for _ in 0..graphs {
        random_graph(random, tally);
    }
}

pub fn judge_dense(graphs: usize, random: &mut Random, tally: &mut Tally<impl Print>) {
    for _ in 0..graphs {
        dense_graph(random, tally);
    }
}
