// What the bounds of a plan are by their rules: its operators are read off its file, over a pile of results,
// and the graph through a few numbers of its drawn edges.
use crate::numbers::Number;
use judge_inputs::bits::Reader;
use judge_inputs::graphs::Graph;
use judge_inputs::queries::{Edge, Query, only};

// Of a query label: the edges, the longest portion along them, and against them.
#[derive(Clone, Copy)]
struct Measure {
    edges: usize,
    along: usize,
    against: usize,
}

// Of each of four query labels.
#[derive(Clone, Copy)]
pub struct Measures {
    of: [Measure; 4],
}

impl Measure {
    fn of(g: &Graph, label: usize) -> Self {
        let edge = Edge::of(label);
        let mut m = Measure {
            edges: 0,
            along: 0,
            against: 0,
        };
        for k in 0..16usize {
            let mut along = 0usize;
            let mut against = 0usize;
            for x in 0..16usize {
                along = along.wrapping_add(edge.count_in(g, k, x));
                against = against.wrapping_add(edge.count_in(g, x, k));
            }
            m.edges = m.edges.wrapping_add(along);
            m.along = m.along.max(along);
            m.against = m.against.max(against);
        }
        m
    }
}

impl Measures {
    pub fn of(g: &Graph) -> Self {
        Measures {
            of: [
                Measure::of(g, 0),
                Measure::of(g, 1),
                Measure::of(g, 2),
                Measure::of(g, 3),
            ],
        }
    }

    fn label(&self, edge: Edge) -> Measure {
        self.of[edge.label % 4]
    }
}

// The set of query vertices that a result covers, its rows, and the words that it needs.
#[derive(Clone, Copy)]
struct Covered {
    set: usize,
    rows: Number,
    need: Number,
}

// How many vertices a set has.
fn width(set: usize) -> usize {
    (0..8usize).filter(|v| set & only(*v) != 0).count()
}

// The longest portions of the query edges between a vertex and a set: the least, if there are any, and the
// sum.
#[derive(Clone, Copy)]
struct Longest {
    least: Option<usize>,
    sum: usize,
}

// The longest portion of a query edge, if it runs between the vertex and the set: along it where the set has
// its source, else against it.
fn longest_portion(m: &Measures, edge: Edge, v: usize, set: usize) -> Option<usize> {
    if edge.target == v && set & only(edge.source) != 0 {
        Some(m.label(edge).along)
    } else if edge.source == v && set & only(edge.target) != 0 {
        Some(m.label(edge).against)
    } else {
        None
    }
}

impl Longest {
    fn of(q: &Query, m: &Measures, v: usize, set: usize) -> Self {
        let mut l = Longest {
            least: None,
            sum: 0,
        };
        for edge in q.list() {
            if let Some(length) = longest_portion(m, *edge, v, set) {
                l.least = Some(l.least.unwrap_or(length).min(length));
                l.sum = l.sum.wrapping_add(length);
            }
        }
        l
    }
}

// The pile of the results, and the cost and the largest number of rows so far.
#[derive(Drop)]
struct Pile {
    results: [Covered; 32],
    depth: usize,
    cost: Number,
    largest: Number,
}

impl Pile {
    fn empty() -> Self {
        let none = Number::from(0);
        Pile {
            results: [Covered {
                set: 0,
                rows: none,
                need: none,
            }; 32],
            depth: 0,
            cost: none,
            largest: none,
        }
    }

    // The result that is under so many others.
    fn under(&self, others: usize) -> Covered {
        self.results[self.depth.wrapping_sub(others.wrapping_add(1)) % 32]
    }

    // Puts a result down in place of so many.
    fn put(&mut self, taken: usize, made: Covered) {
        let depth = self.depth.wrapping_sub(taken);
        self.depth = depth.wrapping_add(1);
        self.largest = self.largest.larger(&made.rows);
        self.results[depth % 32] = made;
    }

    fn scan(&mut self, q: &Query, m: &Measures, i: usize) {
        let edge = q.edge(i);
        let result = Covered {
            set: edge.ends(),
            rows: Number::from(m.label(edge).edges),
            need: Number::from(2),
        };
        self.put(0, result);
    }

    fn extend(&mut self, q: &Query, m: &Measures, v: usize) {
        let operand = self.under(0);
        let set = operand.set | only(v);
        let l = Longest::of(q, m, v, operand.set);
        let least = l.least.unwrap_or(0);
        let own = Number::from(width(set).wrapping_add(least));
        let cost = operand.rows.times(&Number::from(l.sum));
        self.cost = self.cost.plus(&cost);
        let result = Covered {
            set,
            rows: operand.rows.times(&Number::from(least)),
            need: operand.need.plus(&own),
        };
        self.put(1, result);
    }

    // The probe is on top, the build side under it. While the build rows are probed a join needs these,
    // links, heads, the probe's need and a row.
    fn join(&mut self) {
        let probe = self.under(0);
        let build = self.under(1);
        let set = build.set | probe.set;
        let words = build.rows.times(&Number::from(width(build.set)));
        let table = words.plus(&build.rows).plus(&build.rows.power_of_two());
        let row = Number::from(width(set));
        let probed = table.plus(&probe.need).plus(&row);
        let result = Covered {
            set,
            rows: build.rows.times(&probe.rows),
            need: build.need.plus(&words).larger(&probed),
        };
        self.put(2, result);
    }

    // Reads an operator and applies it.
    fn step(&mut self, q: &Query, m: &Measures, plan: &mut Reader) {
        match plan.take(2) {
            0 => self.scan(q, m, plan.take(5)),
            1 => self.extend(q, m, plan.take(3)),
            _ => self.join(),
        }
    }
}

// The four numbers of an accepted plan: list words, scratch words, cost and the largest row bound.
#[derive(Clone, Copy)]
pub struct Bounds {
    pub list_words: u64,
    pub scratch_words: u64,
    pub cost: u64,
    pub largest: u64,
}

impl Bounds {
    pub fn of(q: &Query, m: &Measures, plan: &[u8]) -> Self {
        let mut pile = Pile::empty();
        let mut reader = Reader::new(plan);
        for _ in 0..reader.take(5) {
            pile.step(q, m, &mut reader);
        }
        let last = pile.under(0);
        let words = last.rows.times(&Number::from(q.vertices));
        Bounds {
            list_words: words.cut(),
            scratch_words: last.need.cut(),
            cost: pile.cost.cut(),
            largest: pile.largest.cut(),
        }
    }
}
