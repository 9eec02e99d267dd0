// One step of the walk over a store's entries: those of one vertex and one label are held against the
// words at their neighbours' cursors. The walk itself is `store_walk`; both are a part of 19 (document 01,
// 'Operations and their refusals', Run).
#![tactic(auto)]

ghost use Rattle.std.specs.Prelude.{◌≡◌, ◌&&◌, ℕ, ◌+◌, ◌≤◌, ◌<◌, length};
ghost use Rattle.graph.specs.Graph.{max_graph_vertices, max_graph_edges, entry_span, entry_end};
ghost use Rattle.adjacency.specs.Inner.Side.{Within};
ghost use Rattle.adjacency.specs.Inner.Portion.{member};
ghost use Rattle.store_reverse.specs.Inner.Check.{entry_fits, list_fits, list_reversed};
ghost use Rattle.store_step.specs.Inner.Stops.{number, stop_of, label_of};
ghost use Rattle.store_step.specs.Inner.Walk.{before, Refutes, Matched, Sides, StepFrom, Stepped};

use adjacency::neighbours;
use graph::Graph;

// Why a walk ends before its end.
#[derive(Clone, Copy, PartialEq, Eq)]
pub enum Stop {
    // The sides do not agree.
    Disagree,

    // It is not known whether they do.
    Undecided,
}

// Whether an entry is above the last one, has a label of at most 255 and a neighbour below n.
pub fn entry_fits(entry: u32, last: u32, n: usize) -> bool
    ensures { result ≡ entry_fits n last entry }
{
    last < entry && entry < Graph::ENTRY_END && ((entry % Graph::SPAN) as usize) < n
}

// What entry i of a list has to be above.
fn entry_before(list: &[u32], i: usize) -> u32
    requires { i < length list.now }
    ensures { result ≡ before list.now i }
{
    if i == 0 {
        return Graph::SPAN - 1;
    }
    list[i - 1]
}

// Whether a list has a word.
fn has(list: &[u32], x: u32) -> bool
    ensures { result ≡ member x list.now }
{
    for word in list {
        if *word == x {
            return true;
        }
    }
    false
}

// Of an entry that is not as it should be at its place: the sides do not agree where it is out of order or
// range, or lacks its reverse; else that is undecided. The neighbour's list may be in any order.
fn verdict(store: &[u32], n: usize, other: usize, v: usize, list: &[u32], i: usize) -> Stop
    requires { ((t : ℕ) → t < n → Within store.now n other t)
        × (v < n) × (n ≤ max_graph_vertices) × (i < length list.now) }
    ensures { Refutes (number result)
        (list_fits n list.now && list_reversed store.now n other v
        list.now) }
{
    let entry = list[i];
    if !entry_fits(entry, entry_before(list, i), n) {
        return Stop::Disagree;
    }
    let x = (entry % Graph::SPAN) as usize;
    let reverse = entry - entry % Graph::SPAN + v as u32;
    if has(neighbours(store, n, other, x), reverse) {
        return Stop::Undecided;
    }
    Stop::Disagree
}

// The entries of v's list from `from` on that are of the label whose entries begin at `base`, as far as they
// ascend, lead to a vertex below n, and stand reversed at that vertex's cursor, which moves on: the index
// after the last.
fn matched(
    list: &[u32],
    from: usize,
    v: u32,
    base: u32,
    n: usize,
    back: &[u32],
    cursors: &mut [u32],
) -> usize
    requires from_in_bounds { (from ≤ length list.now) × (v < n) × (n ≤ max_graph_vertices)
        × (n ≤ length cursors.old) }
    requires base_nonzero { (0 < base) × (base + entry_span ≤ entry_end) × (length back.now ≤ max_graph_edges) }
    ensures { Matched n v base list.now back.now from result
        cursors.old cursors.new }
{
    let limit = base + Graph::SPAN;
    let reverse = base + v;
    let mut last = base - 1;
    let mut i = from;
    while i < list.len() {
        let entry = list[i];
        if limit <= entry || entry <= last {
            return i;
        }
        let x = (entry - base) as usize;
        if n <= x {
            return i;
        }
        let at = cursors[x] as usize;
        if back.len() <= at || back[at] != reverse {
            return i;
        }
        cursors[x] = at as u32 + 1;
        last = entry;
        i += 1;
    }
    i
}

// The entries of one label of a vertex, of which `done` tells how many are done: the label of its next entry,
// if it has one.
pub fn advance(
    store: &[u32],
    n: usize,
    side: usize,
    other: usize,
    back: &[u32],
    base: u32,
    v: usize,
    cursors: &mut [u32],
    done: &mut [u16],
) -> Result<Option<u32>, Stop>
    requires sides { Sides store.now n side other back.now }
    requires step_from { StepFrom store.now n side other back.now base v cursors.old done.old }
    ensures { Stepped store.now n side other back.now base v
        cursors.new done.new (stop_of result) (label_of result) }
{
    let list = neighbours(store, n, side, v);
    let i = matched(list, done[v] as usize, v as u32, base, n, back, cursors);
    if Graph::SPAN as usize <= i {
        return Err(Stop::Undecided);
    }
    done[v] = i as u16;
    if i == list.len() {
        return Ok(None);
    }
    let entry = list[i];
    if base + Graph::SPAN <= entry && entry < Graph::ENTRY_END {
        return Ok(Some(entry / Graph::SPAN));
    }
    Err(verdict(store, n, other, v, list, i))
}
