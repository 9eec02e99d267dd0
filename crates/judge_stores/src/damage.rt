// Damages of a store: two words of it are given other values, which are put back afterwards. Some leave it as
// it was, or the store of another graph.
use crate::layout::*;
use judge_inputs::random::Random;
use judge_matcher::slices::word;

// A place of a store, and what stands there or is to.
#[derive(Clone, Copy)]
struct Put {
    at: usize,
    word: usize,
}

// Two words.
#[derive(Clone, Copy)]
pub struct Damage {
    one: Put,
    two: Put,
}

impl Damage {
    // Puts the words; answers what stood there.
    pub fn exchange(self, s: &mut Words) -> Self {
        let before = Damage {
            one: at(s, self.one.at),
            two: at(s, self.two.at),
        };
        put(s, self.one.at, self.one.word);
        put(s, self.two.at, self.two.word);
        before
    }

    // One of all damages.
    pub fn random(s: &Words, l: Layout, random: &mut Random) -> Self {
        let side = random_side(random);
        let v = random.below(l.vertices);
        let hub = if random.chance(30) { 0 } else { v };
        match random.below(12) {
            0 => other_vertex(l, random),
            1 => other_offset(s, l, side, random),
            2 => other_count(s, random),
            3 | 4 | 5 => of_entries(s, l, side, random),
            6 | 7 => next_label(s, l, v, random),
            _ => in_list(s, l, side, hub, random),
        }
    }
}

// What stands at a place.
fn at(s: &Words, i: usize) -> Put {
    Put {
        at: i,
        word: word(s, i),
    }
}

// One word.
fn only(i: usize, x: usize) -> Damage {
    let one = Put { at: i, word: x };
    Damage { one, two: one }
}

// Two words, each in the other's place.
fn crossed(s: &Words, i: usize, j: usize) -> Damage {
    Damage {
        one: Put {
            at: i,
            word: word(s, j),
        },
        two: Put {
            at: j,
            word: word(s, i),
        },
    }
}

// Two entries of one list exchanged: an entry and the next, or any two.
fn in_list(s: &Words, l: Layout, side: Side, v: usize, random: &mut Random) -> Damage {
    let list = l.list(s, side, v);
    let count = list.end.wrapping_sub(list.start);
    let i = list.start.wrapping_add(random.below(count.wrapping_sub(1)));
    if count < 2 {
        return crossed(s, list.start, list.start);
    }
    if random.chance(60) {
        return crossed(s, i, i.wrapping_add(1));
    }
    crossed(s, i, list.start.wrapping_add(random.below(count)))
}

// An entry of another label, neighbour, or anything.
fn other_entry(e: usize, n: usize, random: &mut Random) -> usize {
    let next = label(e).wrapping_add(1);
    let last = label(e).wrapping_sub(1);
    let any = random.below(4294967296);
    let relabelled = entry(random.pick([0, 1, 2, 255, 256, next, last]), e);
    let neighbours = [
        0,
        n.wrapping_sub(1),
        n,
        65535,
        e.wrapping_add(1),
        e.wrapping_sub(1),
    ];
    let moved = entry(label(e), random.pick(neighbours));
    let some = random.pick([0, 65535, 4294967295, any]);
    random.pick([relabelled, moved, some])
}

// An entry of the forward side and its mirror get the next label.
fn next_label(s: &Words, l: Layout, v: usize, random: &mut Random) -> Damage {
    let list = l.list(s, Side::Forward, v);
    let count = list.end.wrapping_sub(list.start);
    let i = list.start.wrapping_add(random.below(count));
    let e = word(s, i);
    let j = find_mirror(s, l, neighbour(e), entry(label(e), v));
    if count == 0 {
        return crossed(s, i, i);
    }
    Damage {
        one: Put {
            at: i,
            word: e.wrapping_add(65536),
        },
        two: Put {
            at: j,
            word: word(s, j).wrapping_add(65536),
        },
    }
}

// Where the backward list of a vertex has an entry; where the list ends, if it has it not.
fn find_mirror(s: &Words, l: Layout, v: usize, e: usize) -> usize {
    let list = l.list(s, Side::Backward, v);
    let end = list.end;
    for i in list {
        if word(s, i) == e {
            return i;
        }
    }
    end
}

// A label or a day, at its limit or above it.
fn other_vertex(l: Layout, random: &mut Random) -> Damage {
    let i = random.below(l.forward.wrapping_sub(2)).wrapping_add(2);
    if l.vertices == 0 {
        return only(1, 0);
    }
    only(i, random.pick([0, 65535, 65536, 4294967295]))
}

// An offset one more or one less.
fn other_offset(s: &Words, l: Layout, side: Side, random: &mut Random) -> Damage {
    let i = l.offset(side, random.below(l.vertices.wrapping_add(1)));
    if random.chance(50) {
        only(i, word(s, i).wrapping_add(1))
    } else {
        only(i, word(s, i).wrapping_sub(1))
    }
}

// A count one more or one less, seldom anything.
fn other_count(s: &Words, random: &mut Random) -> Damage {
    let i = random.below(2);
    let more = word(s, i).wrapping_add(1);
    let less = word(s, i).wrapping_sub(1);
    only(i, random.pick([more, less, 1048576, 65536]))
}

// A side, the backward one more often.
fn random_side(random: &mut Random) -> Side {
    if random.chance(40) {
        Side::Forward
    } else {
        Side::Backward
    }
}

// Damages the words of a side's entries.
fn of_entries(s: &Words, l: Layout, side: Side, random: &mut Random) -> Damage {
    let from = l.entries(side);
    let i = from.wrapping_add(random.below(l.edges));
    let j = from.wrapping_add(random.below(l.edges));
    if l.edges == 0 {
        return crossed(s, 0, 0);
    }
    match random.below(4) {
        0 => crossed(s, i, j),
        1 => only(i, word(s, i.wrapping_sub(1))),
        _ => only(i, other_entry(word(s, i), l.vertices, random)),
    }
}
