// Whether the sides of a store agree, with no search, where there are few labels: the entries are walked
// by ascending (label, vertex), so that those which lead to a vertex arrive in the order of its list on
// the other side, and a cursor for each vertex tells the next. A step of it is `store_step`. It is a part
// of 19 (document 01, 'Operations and their refusals', Run); where it is undecided, a search decides.
#![tactic(auto)]

pub mod passes;

ghost use Rattle.std.specs.Prelude.{◌≡◌, true, ℕ, suc, ◌+◌, ◌≤◌, ◌<◌, length, get_or};
ghost use Rattle.graph.specs.Graph.{max_graph_vertices, max_graph_edges};
ghost use Rattle.store_step.specs.Inner.Stops.{stop_of};
ghost use Rattle.store_step.specs.Inner.Walk.{sides_agree, Decides, BothRise, Blocks, Tables, Ended};

use crate::passes::label_passes;
use graph::Graph;
use store_step::Stop;

// Tables of three sizes, by how many vertices they serve, so that those of a small store are soon made; and
// the words of their sets.
const FEW_VERTICES: usize = 1024;

const FEW_SETS: usize = 256;

const SOME_VERTICES: usize = 8192;

const SOME_SETS: usize = 2048;

const MANY_SETS: usize = 16384;

// More labels than there are sets, among the sampled entries, are left to a search.
const FEW_LABELS: usize = 16;

// One entry of so many is sampled.
const SAMPLE: usize = 16;

// Whether each cursor stands where its list ends. The sum takes no branch.
fn at_ends(cursors: &[u32], ends: &[u32]) -> bool
    requires { (length ends.now ≤ length cursors.now) × (length ends.now ≤ max_graph_vertices) }
    ensures { result ≡ true → (t : ℕ) → t < length ends.now
        → get_or cursors.now t 0 ≡ get_or ends.now t 0 }
{
    let mut apart = 0;
    for (i, end) in ends.iter().enumerate() {
        apart += (cursors[i] != *end) as u32;
    }
    apart == 0
}

// Whether all entries of each vertex are done. The sum takes no branch.
fn all_done(starts: &[u32], done: &[u16], n: usize) -> bool
    requires { (length starts.now ≡ suc n) × (n ≤ length done.now) × (n ≤ max_graph_vertices)
        × ((v : ℕ) → v < n → get_or starts.now v 0 ≤ max_graph_edges) }
    ensures { result ≡ true → (v : ℕ) → v < n → get_or starts.now (suc v) 0
        ≤ get_or starts.now v 0 + get_or done.now v 0 }
{
    let mut left = 0;
    for v in 0..n {
        left += (starts[v] + (done[v] as u32) < starts[v + 1]) as u32;
    }
    left == 0
}

// Passes where every cursor stands at its end and every entry is done; else that is undecided.
fn check_ends(
    store: &[u32],
    n: usize,
    m: usize,
    side: usize,
    other: usize,
    cursors: &[u32],
    done: &[u16],
) -> Result<(), Stop>
    requires { BothRise store.now n m side other × (n ≤ length cursors.now)
        × (n ≤ length done.now) }
    ensures { Ended store.now n side other cursors.now done.now (stop_of result) }
{
    if !at_ends(cursors, &store[other + 1..other + 1 + n])
        || !all_done(&store[side..side + n + 1], done, n)
    {
        return Err(Stop::Undecided);
    }
    Ok(())
}

// The walk, with tables in which no entry is done.
fn walk(
    store: &[u32],
    n: usize,
    m: usize,
    side: usize,
    other: usize,
    cursors: &mut [u32],
    done: &mut [u16],
    sets: &mut [u64],
) -> Result<(), Stop>
    requires both_rise { BothRise store.now n m side other × Tables n cursors.old done.old sets.old }
    requires by_index { (v : ℕ) → v < n → get_or done.old v 0 ≡ 0 }
    ensures { Decides (stop_of result) (sides_agree store.now n side other) }
{
    words::copy(&store[other..other + n], n, cursors);
    let entries = other + n + 1;
    let back = &store[entries..entries + m];
    label_passes(store, n, side, other, back, cursors, done, sets)?;
    check_ends(store, n, m, side, other, cursors, done)
}

// The walk, with tables of so many vertices, and so many words of sets.
fn walk_within<const VERTICES: usize, const SETS: usize>(
    store: &[u32],
    n: usize,
    m: usize,
    side: usize,
    other: usize,
) -> Result<(), Stop>
    requires { BothRise store.now n m side other × (n ≤ VERTICES) × Blocks n SETS
        × (VERTICES ≤ max_graph_vertices) × (SETS ≤ max_graph_vertices) }
    ensures { Decides (stop_of result) (sides_agree store.now n side other) }
{
    let mut cursors = [0u32; VERTICES];
    let mut done = [0u16; VERTICES];
    let mut sets = [0u64; SETS];
    walk(store, n, m, side, other, &mut cursors, &mut done, &mut sets)
}

// Whether the sampled entries have few labels.
fn few_labels(entries: &[u32]) -> bool
    requires { length entries.now ≤ max_graph_edges }
{
    let mut seen = [false; 256];
    let mut labels = 0;
    for i in (0..entries.len()).step_by(SAMPLE) {
        let label = (entries[i] / Graph::SPAN % 256) as usize;
        if !seen[label] {
            if labels == FEW_LABELS {
                return false;
            }
            seen[label] = true;
            labels += 1;
        }
    }
    true
}

// Whether the sides of a store agree: passes where they do, and is undecided where that takes a search.
pub fn check_agreement(
    store: &[u32],
    n: usize,
    m: usize,
    side: usize,
    other: usize,
) -> Result<(), Stop>
    requires { BothRise store.now n m side other }
    ensures { Decides (stop_of result) (sides_agree store.now n side other) }
{
    let entries = side + n + 1;
    if !few_labels(&store[entries..entries + m]) {
        return Err(Stop::Undecided);
    }
    if n <= FEW_VERTICES {
        return walk_within::<FEW_VERTICES, FEW_SETS>(store, n, m, side, other);
    }
    if n <= SOME_VERTICES {
        return walk_within::<SOME_VERTICES, SOME_SETS>(store, n, m, side, other);
    }
    walk_within::<{ Graph::MAX_VERTICES }, MANY_SETS>(store, n, m, side, other)
}
