// Where the words of a store stand. A word outside its slice reads as 0, and is written nowhere.
use judge_matcher::slices::word;
use std::ops::Range;

// The largest store of the judge, and its most vertices.
pub const MAX_WORDS: usize = 360000;

pub const MAX_VERTICES: usize = 24576;

pub type Words = [u32; MAX_WORDS];

pub type Cursors = [u32; MAX_VERTICES];

#[derive(Clone, Copy)]
pub enum Side {
    Forward,
    Backward,
}

// The counts of a store, and where its forward and its backward offsets begin.
#[derive(Clone, Copy)]
pub struct Layout {
    pub vertices: usize,
    pub edges: usize,
    pub forward: usize,
    pub backward: usize,
}

impl Layout {
    pub fn of(vertices: usize, edges: usize) -> Self {
        let n = vertices % 65536;
        let m = edges % 1048576;
        Layout {
            vertices: n,
            edges: m,
            forward: 2 + 2 * n,
            backward: 3 + 3 * n + m,
        }
    }

    // The words of a store.
    pub fn used(self) -> usize {
        self.entries(Side::Backward).wrapping_add(self.edges)
    }

    // Where the offset of a vertex is on a side.
    pub fn offset(self, side: Side, v: usize) -> usize {
        let from = match side {
            Side::Forward => self.forward,
            Side::Backward => self.backward,
        };
        from.wrapping_add(v)
    }

    // Where the entries of a side begin.
    pub fn entries(self, side: Side) -> usize {
        self.offset(side, self.vertices).wrapping_add(1)
    }

    // Where the entries of a side are, one for each edge.
    pub fn side(self, side: Side) -> Range<usize> {
        let from = self.entries(side);
        from..from.wrapping_add(self.edges)
    }

    // Where the list of a vertex is on a side.
    pub fn list(self, s: &[u32], side: Side, v: usize) -> Range<usize> {
        let from = self.entries(side);
        let start = word(s, self.offset(side, v));
        let end = word(s, self.offset(side, v.wrapping_add(1)));
        from.wrapping_add(start)..from.wrapping_add(end)
    }
}

pub fn put(s: &mut [u32], i: usize, x: usize) {
    if let Some(word) = s.get_mut(i) {
        *word = (x % 4294967296) as u32;
    }
}

// The label and the neighbour of an entry.
pub fn label(entry: usize) -> usize {
    entry / 65536
}

pub fn neighbour(entry: usize) -> usize {
    entry % 65536
}

pub fn entry(label: usize, v: usize) -> usize {
    label % 65536 * 65536 + v % 65536
}

// Adds one to a word.
pub fn count_up(s: &mut [u32], i: usize) {
    if let Some(word) = s.get_mut(i) {
        *word = word.wrapping_add(1);
    }
}
