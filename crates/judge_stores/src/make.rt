// Stores of random graphs, of few vertices or many and few labels or many, with hubs or without.
use crate::layout::*;
use crate::model;
use judge_inputs::random::Random;
use judge_matcher::slices::word;

// How a graph is drawn: its vertices; its labels, 1 and so many further apart; how far the targets of a
// vertex are apart at most; and whether vertex 7 leads to nearly all, and nearly all to vertex 0.
#[derive(Clone, Copy)]
pub struct Shape {
    pub vertices: usize,
    pub labels: usize,
    pub apart: usize,
    pub gap: usize,
    pub hubs: bool,
}

// The entries of one label from a target on; answers the index after them.
fn put_targets(
    s: &mut Words,
    at: usize,
    n: usize,
    of: usize,
    target: usize,
    gap: usize,
    random: &mut Random,
) -> usize {
    let mut next = at;
    let mut t = target;
    for _ in 0..n {
        if n <= t {
            break;
        }
        put(s, next, entry(of, t));
        next = next.wrapping_add(1);
        t = t.wrapping_add(random.below(gap).wrapping_add(1));
    }
    next
}

// The list of a vertex; answers the index after it.
fn put_list(s: &mut Words, at: usize, shape: Shape, v: usize, random: &mut Random) -> usize {
    let mut next = at;
    let mut of = 1usize;
    let gap = if shape.hubs && v == 7 { 1 } else { shape.gap };
    for _ in 0..shape.labels % 256 {
        let some = random.below(gap);
        let hub = shape.hubs & random.chance(90);
        let target = if hub { 0 } else { some };
        next = put_targets(s, next, shape.vertices, of, target, gap, random);
        of = of.wrapping_add(shape.apart);
    }
    next
}

// The forward side; answers how many entries it has.
fn put_forward(s: &mut Words, shape: Shape, random: &mut Random) -> usize {
    let l = Layout::of(shape.vertices, 0);
    let from = l.entries(Side::Forward);
    let mut at = from;
    for v in 0..l.vertices {
        put(s, l.offset(Side::Forward, v), at.wrapping_sub(from));
        at = put_list(s, at, shape, v, random);
    }
    put(
        s,
        l.offset(Side::Forward, l.vertices),
        at.wrapping_sub(from),
    );
    at.wrapping_sub(from)
}

// Makes a store; answers its layout.
pub fn make(s: &mut Words, copy: &mut Words, shape: Shape, random: &mut Random) -> Layout {
    let edges = put_forward(s, shape, random);
    let l = Layout::of(shape.vertices, edges);
    put(s, 0, l.vertices);
    put(s, 1, l.edges);
    // Some labels and days.
    for i in 2..l.forward {
        put(s, i, random.below(65536));
    }
    model::turn(s, l, copy);
    for i in l.backward..l.used() {
        put(s, i, word(copy, i));
    }
    l
}
