// A graph: up to 16 vertices that may have edges, named by their places, and spread over the numbers below N.
ghost use Rattle.std.specs.Prelude.{◌<◌};

use crate::bits::*;
use crate::random::Random;

pub const FILE_BYTES: usize = 5120;

const CELL_COUNT: usize = 1024;

// The edge labels, by their indices.
const EDGE_LABELS: [usize; 4] = [1, 2, 128, 255];

const VERTEX_LABELS: [usize; 4] = [0, 5, 700, 0];

const DAYS: [usize; 4] = [0, 9447, 9448, 65535];

#[derive(Clone, Copy)]
pub struct Graph {
    pub vertices: usize,
    pub edges: usize,
    pub places: usize,
    // The number of place 0, and the bits by which a place is shifted to get from there to its number.
    first: usize,
    shift: usize,
    // How many edge labels are used.
    edge_labels: usize,
    // Two bits for each place choose its label, and two its day.
    label_bits: usize,
    day_bits: usize,
    // For each source, label and target, in the file's order, whether the edge is there.
    cells: [bool; CELL_COUNT],
}

// The places and the label's index of an edge.
#[derive(Clone, Copy)]
struct Cell {
    source: usize,
    label: usize,
    target: usize,
}

impl Cell {
    fn of(number: usize) -> Self {
        Cell {
            source: number / 64 % 16,
            label: number / 16 % 4,
            target: number % 16,
        }
    }

    fn number(self) -> usize
        ensures { result < 1024 }
    {
        self.source % 16 * 64 + self.label % 4 * 16 + self.target % 16
    }
}

// The edge label of an index below 4.
pub fn edge_label(l: usize) -> usize {
    EDGE_LABELS[l % 4]
}

// The vertex label that the i-th two bits of a word choose.
pub fn vertex_label(word: usize, i: usize) -> usize {
    VERTEX_LABELS[(word >> (i % 16 * 2)) % 4]
}

impl Graph {
    // No vertices, and no edges.
    pub fn empty() -> Self {
        Graph {
            vertices: 0,
            edges: 0,
            places: 0,
            first: 0,
            shift: 0,
            edge_labels: 0,
            label_bits: 0,
            day_bits: 0,
            cells: [false; CELL_COUNT],
        }
    }

    // A graph of so many places and edge labels, each edge drawn so many times of a hundred; every second has
    // labels on its vertices, and four of five have days.
    pub fn draw(places: usize, edge_labels: usize, percent: usize, random: &mut Random) -> Self {
        let mut g = Graph::empty();
        g.places = places;
        g.edge_labels = edge_labels;
        if random.chance(50) {
            g.label_bits = random.below(4294967296);
        }
        if random.chance(80) {
            g.day_bits = random.below(4294967296);
        }
        g.spread(random);
        g.turn_edges(percent, random);
        g
    }

    // A random graph of fewer than so many places, and of up to three edge labels.
    pub fn random(places: usize, random: &mut Random) -> Self {
        let places = random.below(places);
        let edge_labels = random.below(3).wrapping_add(1);
        let percent = random.below(50).wrapping_add(10);
        Graph::draw(places, edge_labels, percent, random)
    }

    // Spreads the places over the numbers, with a few vertices before and after them.
    fn spread(&mut self, random: &mut Random) {
        self.first = random.below(3);
        let most = random.below(7);
        self.shift = random.below(most.wrapping_add(1));
        self.vertices = random.below(3);
        if 0 < self.places {
            let last = self.number(self.places - 1);
            self.vertices = self.vertices.wrapping_add(last.wrapping_add(1));
        }
    }

    // The vertex number of a place.
    fn number(&self, k: usize) -> usize {
        self.first.wrapping_add((k % 16) << (self.shift % 8))
    }

    // The place of a vertex number.
    pub fn place(&self, v: usize) -> Option<usize> {
        let k = v.wrapping_sub(self.first) >> (self.shift % 8);
        if k < self.places && self.number(k) == v {
            Some(k)
        } else {
            None
        }
    }

    // The label of the vertex of a place.
    pub fn label(&self, k: usize) -> usize {
        vertex_label(self.label_bits, k)
    }

    // The inspection day of the vertex of a place.
    pub fn day(&self, k: usize) -> usize {
        DAYS[(self.day_bits >> (k % 16 * 2)) % 4]
    }

    // The graph has the edge of a label's index between two places.
    pub fn has(&self, source: usize, label: usize, target: usize) -> bool {
        let cell = Cell {
            source,
            label,
            target,
        };
        self.cells[cell.number()]
    }

    // Turns an edge over, as often as is drawn. Place 0 is a hub: its edges are turned over twice as often.
    fn turn_edge(&mut self, cell: Cell, percent: usize, random: &mut Random) {
        if self.places <= cell.source
            || self.places <= cell.target
            || self.edge_labels <= cell.label
        {
            return;
        }
        let hub = cell.source == 0;
        if random.chance(if hub { percent << 1 } else { percent }) {
            let i = cell.number();
            let there = !self.cells[i];
            self.cells[i] = there;
            self.edges = if there {
                self.edges.wrapping_add(1)
            } else {
                self.edges.wrapping_sub(1)
            };
        }
    }

    // Turns each edge over so many times of a hundred: those that are there go, and others come.
    pub fn turn_edges(&mut self, percent: usize, random: &mut Random) {
        for i in 0..CELL_COUNT {
            self.turn_edge(Cell::of(i), percent, random);
        }
    }

    // Turns edges over, one of four, whose labels' indices are not in a set of them. Every label is used from
    // here on.
    pub fn turn_others(&mut self, named: usize, random: &mut Random) {
        self.edge_labels = 4;
        for i in 0..CELL_COUNT {
            let cell = Cell::of(i);
            if (named >> (cell.label % 4)) % 2 == 0 {
                self.turn_edge(cell, 25, random);
            }
        }
    }

    // Writes the label and the day of a vertex number; one that has no place has no edges, and some label and
    // day.
    fn write_vertex(&self, v: usize, w: &mut Writer) {
        match self.place(v) {
            Some(k) => {
                w.put(16, self.label(k));
                w.put(16, self.day(k));
            }
            None => {
                w.put(16, v % 7);
                w.put(16, 65535 - v % 7);
            }
        }
    }

    // Writes the edges that an old graph has and this one not, or the other way round; before each so many
    // bits that are 1 where this one has it. Answers how many there are.
    fn write_edges(&self, old: &Graph, bits: usize, w: &mut Writer) -> usize {
        let mut count = 0usize;
        for i in 0..CELL_COUNT {
            let has = self.cells[i];
            if has != old.cells[i] {
                let cell = Cell::of(i);
                w.put(bits, has as usize);
                w.put(16, self.number(cell.source));
                w.put(8, edge_label(cell.label));
                w.put(16, self.number(cell.target));
                count = count.wrapping_add(1);
            }
        }
        count
    }

    // Writes the graph's file over zeros and answers its length in bytes.
    pub fn write(&self, file: &mut [u8]) -> usize {
        let mut w = Writer::new(file, 0);
        w.put(16, self.vertices);
        w.put(20, self.edges);
        for v in 0..self.vertices % 65536 {
            self.write_vertex(v, &mut w);
        }
        self.write_edges(&Graph::empty(), 0, &mut w);
        w.bytes()
    }

    // Writes the file of the changes from an old graph to this one over zeros and answers its length in
    // bytes.
    pub fn write_changes(&self, old: &Graph, file: &mut [u8]) -> usize {
        let mut w = Writer::new(file, 20);
        let count = self.write_edges(old, 1, &mut w);
        let bytes = w.bytes();
        put_field(file, 0, 20, count);
        bytes
    }
}
