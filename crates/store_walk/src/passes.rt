// All vertices, label by label. A vertex waits in the set of its next entry's label; which set that is, and
// which vertices are in it, decides how soon an answer comes, and not which.
ghost use Rattle.std.specs.Prelude.{◌≡◌, ℕ, Some, ◌+◌, ◌*◌, ◌≤◌, ◌<◌, length};
ghost use Rattle.graph.specs.Graph.{max_graph_vertices, entry_span, entry_end};
ghost use Rattle.bitset.specs.Inner.Set.{lowest_bit};
ghost use Rattle.store_step.specs.Inner.Stops.{stop_of};
ghost use Rattle.store_step.specs.Inner.Walk.{sides_agree, Outcome, WalkedIn, StepFrom};
ghost use Rattle.store_step.specs.Inner.Walk.{Sides, Blocks, Tables, Labelled};

use bitset::{lowest, without_lowest};
use graph::Graph;
use store_step::{Stop, advance};

// So many sets are kept, each in words of 64 vertices; word i of set k is word i * SETS + k.
const SETS: usize = 16;

const WORD: usize = 64;

// Labels are below this.
const LABELS: usize = 256;

// The set of a label: the one that it has, or a new one, if one is left. `sets_of` has one more than its
// number for each label, and for label 0 how many there are.
fn set_of(label: usize, sets_of: &mut [u8; LABELS]) -> Option<usize>
    requires { label < 256 }
    ensures { (set : ℕ) → result ≡ Some set → set < 16 }
{
    let mut next = sets_of[label] as usize;
    if next == 0 {
        next = sets_of[0] as usize + 1;
        if SETS < next {
            return None;
        }
        sets_of[0] = next as u8;
        sets_of[label] = next as u8;
    }
    if SETS < next {
        return None;
    }
    Some(next - 1)
}

// Vertex v of the label whose entries begin at `base`; then it waits for its next one.
fn vertex_pass(
    store: &[u32],
    n: usize,
    side: usize,
    other: usize,
    back: &[u32],
    base: u32,
    v: usize,
    cursors: &mut [u32],
    done: &mut [u16],
    sets: &mut [u64],
    sets_of: &mut [u8; LABELS],
) -> Result<(), Stop>
    requires sides { Sides store.now n side other back.now × Tables n cursors.old done.old sets.old }
    requires step_from { StepFrom store.now n side other back.now base v cursors.old done.old }
    ensures { Outcome (stop_of result) (sides_agree store.now n side other)
        (WalkedIn store.now n side other back.now
        cursors.new done.new (base + v + 1)) }
{
    if let Some(label) = advance(store, n, side, other, back, base, v, cursors, done)? {
        match set_of(label as usize, sets_of) {
            Some(set) => sets[v / WORD * SETS + set] |= 1u64 << (v % WORD),
            None => return Err(Stop::Undecided),
        }
    }
    Ok(())
}

// The vertices of a word of a set, ascending.
fn word_pass(
    store: &[u32],
    n: usize,
    side: usize,
    other: usize,
    back: &[u32],
    base: u32,
    i: usize,
    word: u64,
    cursors: &mut [u32],
    done: &mut [u16],
    sets: &mut [u64],
    sets_of: &mut [u8; LABELS],
) -> Result<(), Stop>
    requires sides { Sides store.now n side other back.now × Tables n cursors.old done.old sets.old }
    requires labelled { Labelled base × (64 * i < n) }
    requires walked_in { WalkedIn store.now n side other back.now cursors.old done.old
        (base + 64 * i + lowest_bit word) }
    ensures { Outcome (stop_of result) (sides_agree store.now n side other)
        (WalkedIn store.now n side other back.now
        cursors.new done.new (base + 64 * i + 64)) }
{
    let mut w = word;
    // The lowest bit is taken off.
    while 0 < w {
        let v = i * WORD + lowest(w) as usize;
        if n <= v {
            return Ok(());
        }
        vertex_pass(
            store, n, side, other, back, base, v, cursors, done, sets, sets_of,
        )?;
        w = without_lowest(w);
    }
    Ok(())
}

// The vertices of a label's set, ascending; none where it has no set.
fn label_pass(
    store: &[u32],
    n: usize,
    side: usize,
    other: usize,
    back: &[u32],
    label: usize,
    cursors: &mut [u32],
    done: &mut [u16],
    sets: &mut [u64],
    sets_of: &mut [u8; LABELS],
) -> Result<(), Stop>
    requires sides { Sides store.now n side other back.now × Tables n cursors.old done.old sets.old }
    requires label_nonzero { (0 < label) × (label < 256) }
    requires walked_in { WalkedIn store.now n side other back.now cursors.old done.old (label * entry_span) }
    ensures { Outcome (stop_of result) (sides_agree store.now n side other)
        (WalkedIn store.now n side other back.now
        cursors.new done.new (label * entry_span + entry_span)) }
{
    let set = sets_of[label] as usize;
    if set == 0 {
        return Ok(());
    }
    if SETS < set {
        return Err(Stop::Undecided);
    }
    let base = label as u32 * Graph::SPAN;
    for i in 0..n.div_ceil(WORD) {
        let word = sets[i * SETS + set - 1];
        word_pass(
            store, n, side, other, back, base, i, word, cursors, done, sets, sets_of,
        )?;
    }
    Ok(())
}

// All vertices wait in the first set.
fn all_wait(n: usize, sets: &mut [u64])
    requires { (n ≤ max_graph_vertices) × Blocks n (length sets.old) }
{
    for i in 0..n.div_ceil(WORD) {
        sets[i * SETS] = u64::MAX;
    }
}

// The labels in turn; the first set is that of label 1.
pub fn label_passes(
    store: &[u32],
    n: usize,
    side: usize,
    other: usize,
    back: &[u32],
    cursors: &mut [u32],
    done: &mut [u16],
    sets: &mut [u64],
) -> Result<(), Stop>
    requires sides { Sides store.now n side other back.now × Tables n cursors.old done.old sets.old }
    requires walked_in { WalkedIn store.now n side other back.now cursors.old done.old entry_span }
    ensures { Outcome (stop_of result) (sides_agree store.now n side other)
        (WalkedIn store.now n side other back.now
        cursors.new done.new entry_end) }
{
    let mut sets_of = [0u8; LABELS];
    sets_of[0] = 1;
    sets_of[1] = 1;
    all_wait(n, sets);
    for label in 1..LABELS {
        label_pass(
            store,
            n,
            side,
            other,
            back,
            label,
            cursors,
            done,
            sets,
            &mut sets_of,
        )?;
    }
    Ok(())
}
