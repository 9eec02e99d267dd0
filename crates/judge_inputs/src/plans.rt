// A plan: its operators, and the pile of the results that they make.
use crate::bits::Writer;
use crate::queries::{Query, only};
use crate::random::Random;

const MAX_OPERATORS: usize = 31;

#[derive(Clone, Copy)]
enum Operator {
    // Of the query edge of an index.
    Scan(usize),
    // By a query vertex.
    Extend(usize),
    Join,
}

impl Operator {
    fn write(self, w: &mut Writer) {
        match self {
            Operator::Scan(edge) => {
                w.put(2, 0);
                w.put(5, edge);
            }
            Operator::Extend(v) => {
                w.put(2, 1);
                w.put(3, v);
            }
            Operator::Join => w.put(2, 2),
        }
    }
}

#[derive(Clone, Copy)]
struct Plan {
    operators: [Operator; 32],
    count: usize,
    // The set of query vertices that each result covers, the topmost last, and how many results there are.
    sets: [usize; 32],
    depth: usize,
}

impl Plan {
    fn empty() -> Self {
        Plan {
            operators: [Operator::Join; 32],
            count: 0,
            sets: [0; 32],
            depth: 0,
        }
    }

    // A random plan that is accepted: random operators until it is finished, on an empty plan after as many
    // steps as a plan has operators at most. From step 500 on a plan has one scan.
    fn random(q: &Query, random: &mut Random) -> Self {
        let scans = random.below(60).wrapping_add(10);
        let mut plan = Plan::empty();
        for i in 0..1000usize {
            if i % MAX_OPERATORS == 0 {
                plan = Plan::empty();
            }
            plan.step(q, if i < 500 { scans } else { 0 }, random);
            if plan.is_finished(q) {
                break;
            }
        }
        plan
    }

    // The set of the result that lies under so many others.
    fn set_under(&self, under: usize) -> usize {
        self.sets[self.depth.wrapping_sub(under.wrapping_add(1)) % 32]
    }

    // Adds an operator, whose result covers a set and takes the place of so many.
    fn put(&mut self, operator: Operator, taken: usize, set: usize) {
        let depth = self.depth.wrapping_sub(taken);
        self.operators[self.count % 32] = operator;
        self.count = self.count.wrapping_add(1);
        self.sets[depth % 32] = set;
        self.depth = depth.wrapping_add(1);
    }

    // Scans a random edge.
    fn scan(&mut self, q: &Query, random: &mut Random) {
        let i = random.below(q.edges);
        self.put(Operator::Scan(i), 0, q.edge(i).ends());
    }

    // Extends the top result by a random vertex, if it may be.
    fn extend(&mut self, q: &Query, random: &mut Random) {
        let v = random.below(q.vertices) % 8;
        let set = self.set_under(0);
        if set & only(v) == 0 && set & q.next_to(v) != 0 {
            self.put(Operator::Extend(v), 1, set | only(v));
        }
    }

    // One more operator: mostly a join where it may be, a scan so many times of a hundred, else an extend.
    fn step(&mut self, q: &Query, scans: usize, random: &mut Random) {
        let a = self.set_under(0);
        let b = self.set_under(1);
        let joins = random.chance(80);
        let scans = random.chance(scans);
        if joins && 1 < self.depth && may_join(q, a, b) {
            self.put(Operator::Join, 2, a | b);
        } else if scans || self.depth == 0 {
            self.scan(q, random);
        } else {
            self.extend(q, random);
        }
    }

    // The plan ends with one result that covers every vertex.
    fn is_finished(&self, q: &Query) -> bool {
        self.depth == 1 && self.sets[0].wrapping_add(1) == 1usize << (q.vertices % 16)
    }
}

// The vertices next to those of a set.
fn next_to_set(q: &Query, set: usize) -> usize {
    let mut found = 0;
    for v in 0..8usize {
        if set & only(v) != 0 {
            found |= q.next_to(v);
        }
    }
    found
}

// Two results may be joined: they share a vertex, each has one that the other lacks, and no edge leads from
// these to those.
fn may_join(q: &Query, a: usize, b: usize) -> bool {
    let shared = a & b;
    let lost = next_to_set(q, a ^ shared) & (b ^ shared);
    shared != 0 && shared != a && shared != b && lost == 0
}

// Writes a random accepted plan over zeros, and answers its length in bytes.
pub fn write_random(q: &Query, file: &mut [u8], random: &mut Random) -> usize {
    let plan = Plan::random(q, random);
    let mut w = Writer::new(file, 0);
    w.put(5, plan.count);
    for operator in plan.operators.iter().take(plan.count) {
        operator.write(&mut w);
    }
    w.bytes()
}
