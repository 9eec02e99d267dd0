// The stream of stores, each held to the model as it was made, and damaged.
use crate::damage::Damage;
use crate::layout::*;
use crate::make::*;
use crate::model;
use judge_inputs::random::Random;
use judge_matcher::slices::first;
use judge_matcher::tally::Tally;
use store_check::check_store;

// The kinds of stores; after each stand those that were damaged and accepted, and those refused.
pub const SMALL: usize = 0;

pub const MIDDLE: usize = 3;

pub const LARGE: usize = 6;

pub const LONG: usize = 9;

// One to 255 labels; 16 are as many as the check walks at most.
const COUNTS: [usize; 8] = [1, 3, 9, 12, 16, 17, 40, 255];

const APARTS: [usize; 8] = [1, 127, 31, 23, 16, 15, 6, 1];

const MIDDLES: [usize; 4] = [300, 1024, 1025, 2000];

const MIDDLE_GAPS: [usize; 8] = [150, 300, 600, 1200, 2400, 2400, 4800, 30000];

// Three labels, and as many as the check walks, of which the hubs have an entry for nearly every vertex.
const LONGS: [Shape; 2] = [
    Shape {
        vertices: 22000,
        labels: 3,
        apart: 1,
        gap: 1000000,
        hubs: true,
    },
    Shape {
        vertices: 4300,
        labels: 16,
        apart: 1,
        gap: 1000000,
        hubs: true,
    },
];

// The number of the store check's refusal, 0 for none.
fn fault(s: &[u32]) -> u32 {
    match check_store(s) {
        Ok(()) => 0,
        Err(refusal) => refusal.number(),
    }
}

// The store that is judged, and the words in which the model makes another.
#[derive(Drop)]
struct Stores<'a> {
    words: &'a mut Words,
    copy: &'a mut Words,
}

impl<'a> Stores<'a> {
    // The engine's answer is the model's.
    fn judge_words(&mut self, words: usize, kind: usize, tally: &mut Tally<impl Print>) {
        let s = first(self.words, words);
        let right = model::is_store(s, self.copy);
        let expected = if right { 0 } else { 19 };
        let after = if right { 1 } else { 2 };
        tally.judge(kind.wrapping_add(after), fault(s) == expected);
    }

    // A store as it was made is right, also with words past it; without its last word it is not.
    fn judge_right(&mut self, l: Layout, kind: usize, tally: &mut Tally<impl Print>) {
        let words = l.used();
        let exact = first(self.words, words);
        let made = model::is_store(exact, self.copy);
        let same = fault(exact) == 0;
        let longer = fault(first(self.words, words.wrapping_add(3))) == 0;
        let shorter = fault(first(self.words, words.wrapping_sub(1))) == 19;
        tally.judge(kind, made && same && longer && shorter);
    }

    // A damage, and in every third store a second one.
    fn judge_damaged(
        &mut self,
        l: Layout,
        kind: usize,
        random: &mut Random,
        tally: &mut Tally<impl Print>,
    ) {
        let one = Damage::random(self.words, l, random).exchange(self.words);
        if random.chance(30) {
            let two = Damage::random(self.words, l, random).exchange(self.words);
            self.judge_words(l.used(), kind, tally);
            two.exchange(self.words);
        } else {
            self.judge_words(l.used(), kind, tally);
        }
        one.exchange(self.words);
    }

    // A store, damaged so many times; one too large for the words is passed over.
    fn judge(
        &mut self,
        shape: Shape,
        times: usize,
        kind: usize,
        random: &mut Random,
        tally: &mut Tally<impl Print>,
    ) {
        let l = make(self.words, self.copy, shape, random);
        if l.used().wrapping_add(3) <= MAX_WORDS {
            self.judge_right(l, kind, tally);
            for _ in 0..times {
                self.judge_damaged(l, kind, random, tally);
            }
        }
    }
}

fn random_shape(vertices: usize, labels: usize, gap: usize, random: &mut Random) -> Shape {
    let apart = if random.chance(50) {
        APARTS[labels % 8]
    } else {
        1
    };
    Shape {
        vertices,
        labels: COUNTS[labels % 8],
        apart,
        gap,
        hubs: random.chance(50),
    }
}

pub fn judge_small(random: &mut Random, tally: &mut Tally<impl Print>) {
    let mut words = [0u32; MAX_WORDS];
    let mut copy = [0u32; MAX_WORDS];
    let mut s = Stores {
        words: &mut words,
        copy: &mut copy,
    };
    for _ in 0..600usize {
        let vertices = random.below(41);
        let labels = random.below(8);
        let gap = random.below(40).wrapping_add(1);
        let shape = random_shape(vertices, labels, gap, random);
        s.judge(shape, 40, SMALL, random, tally);
    }
}

pub fn judge_middle(random: &mut Random, tally: &mut Tally<impl Print>) {
    let mut words = [0u32; MAX_WORDS];
    let mut copy = [0u32; MAX_WORDS];
    let mut s = Stores {
        words: &mut words,
        copy: &mut copy,
    };
    for i in 0..64usize {
        let shape = random_shape(MIDDLES[i / 8 % 4], i, MIDDLE_GAPS[i % 8], random);
        s.judge(shape, 40, MIDDLE, random, tally);
    }
}

pub fn judge_large(random: &mut Random, tally: &mut Tally<impl Print>) {
    let mut words = [0u32; MAX_WORDS];
    let mut copy = [0u32; MAX_WORDS];
    let mut s = Stores {
        words: &mut words,
        copy: &mut copy,
    };
    for i in 0..8usize {
        let shape = random_shape(8192 + i % 2, i / 2, 20000, random);
        s.judge(shape, 20, LARGE, random, tally);
    }
}

pub fn judge_long(random: &mut Random, tally: &mut Tally<impl Print>) {
    let mut words = [0u32; MAX_WORDS];
    let mut copy = [0u32; MAX_WORDS];
    let mut s = Stores {
        words: &mut words,
        copy: &mut copy,
    };
    for shape in LONGS {
        s.judge(shape, 20, LONG, random, tally);
    }
}
