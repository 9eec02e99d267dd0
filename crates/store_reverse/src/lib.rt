// Whether each entry of a store has its reverse entry on the other side, where lists are short, as those
// of a rig are, and the predicates of the whole check of 19 (document 01, 'Operations and their refusals',
// Run). Where labels are few `store_walk` decides instead, and `store_check` is the whole.
//
// All entries of a side are taken in turn, with no loop for each list, whose end a processor guesses wrong
// more often than not. The vertex of an entry is one less than how many lists begin at it or before it,
// and that is counted for a block of entries at a time.
#![tactic(auto)]

pub mod hint;

ghost use Rattle.std.specs.Prelude.{◌≡◌, ℕ, suc, ◌+◌, ◌-◌, ◌%◌, ◌≤◌, ◌<◌, length, get_or, take, drop};
ghost use Rattle.lists.specs.Lists.{range, all};
ghost use Rattle.graph.specs.Graph.{max_graph_vertices, entry_span};
ghost use Rattle.counting_sort.specs.Inner.Groups.{group_sizes};
ghost use Rattle.adjacency.specs.Inner.Side.{list_on};
ghost use Rattle.adjacency.specs.Inner.Portion.{member};
ghost use Rattle.store_reverse.specs.Inner.Check.{reverse, GoodSide, side_reversed};
ghost use Rattle.store_reverse.specs.Inner.Begun.{block_entries, begun_in, Begins, start_in, EntryFits};
ghost use Rattle.store_reverse.specs.Inner.Begun.{BlockFits, Flat, entries_reversed, Sides};

use crate::hint::has_hinted;
use adjacency::neighbours;
use graph::Graph;

const BLOCK: usize = 1024;

// A list of so many words is looked through at once.
const FEW: usize = 4;

// Whether a list of at most four words has a word. Four places are looked at, whatever its length: those past
// its end are its last. The sum takes no branch.
fn has_few(list: &[u32], x: u32) -> bool
    requires { length list.now ≤ 4 }
    ensures { result ≡ member x list.now }
{
    if list.len() == 0 {
        return false;
    }
    let end = list.len() - 1;
    let second = (0 < end) as usize;
    let third = second + (1 < end) as usize;
    let found = (list[0] == x) as u32
        + (list[second] == x) as u32
        + (list[third] == x) as u32
        + (list[end] == x) as u32;
    found != 0
}

// Whether an entry of vertex v has its reverse on the other side: its neighbour's entry of the same label
// and v.
fn is_reversed(
    store: &[u32],
    n: usize,
    other: usize,
    v: u32,
    entry: u32,
    hints: &mut [u8; Graph::MAX_VERTICES],
) -> bool
    requires { GoodSide store.now n other × (v < n) × (n < suc max_graph_vertices) × EntryFits n entry }
    ensures { result ≡ member (reverse v entry) (list_on store.now n other (entry % entry_span)) }
{
    let x = (entry % Graph::SPAN) as usize;
    let reverse = entry - entry % Graph::SPAN + v;
    let list = neighbours(store, n, other, x);
    if FEW < list.len() {
        return has_hinted(list, reverse, hints, x);
    }
    has_few(list, reverse)
}

// Whether every entry of a block has its reverse on the other side.
fn block_reversed(
    store: &[u32],
    n: usize,
    other: usize,
    entries: &[u32],
    begun: &[u32],
    hints: &mut [u8; Graph::MAX_VERTICES],
) -> bool
    requires { GoodSide store.now n other × (n < suc max_graph_vertices)
        × BlockFits n entries.now begun.now }
    ensures { result
        ≡ all (λ (j : ℕ). member (reverse (get_or begun.now j 0 - 1) (get_or entries.now j 0))
        (list_on store.now n other (get_or entries.now j 0 % entry_span)))
        (range (length entries.now)) }
{
    for j in 0..entries.len() {
        if !is_reversed(store, n, other, begun[j] - 1, entries[j], hints) {
            return false;
        }
    }
    true
}

// How many lists begin at each entry of a block; the `next` ones that begin before it are counted at its
// first.
fn count_starts(starts: &[u32], next: usize, base: usize, counts: &mut [u32])
    requires { Begins starts.now next base × (length counts.old ≡ block_entries) }
    ensures { counts.new ≡ group_sizes (start_in starts.now base) block_entries
        (range (length starts.now - 1)) }
{
    counts.fill(0);
    counts[0] = next as u32;
    for v in next..starts.len() - 1 {
        let at = starts[v] as usize;
        if base + BLOCK <= at {
            return;
        }
        counts[at - base] += 1;
    }
}

// How many lists begin at each entry of a block or before it.
fn lists_begun(starts: &[u32], next: usize, base: usize, begun: &mut [u32])
    requires { Begins starts.now next base × (length begun.old ≡ block_entries) }
    ensures { begun.new ≡ begun_in starts.now base }
{
    count_starts(starts, next, base, begun);
    counting_sort::accumulate(begun);
}

// The entries of a block that begins at one of them: up to its end or theirs.
fn block(entries: &[u32], base: usize) -> &[u32]
    requires { base ≤ length entries.now }
    ensures { result.now ≡ take block_entries (drop base entries.now) }
{
    &entries[base..entries.len().min(base + BLOCK)]
}

// Whether every entry of a side has its reverse on the other.
fn blocks_reversed(
    store: &[u32],
    n: usize,
    other: usize,
    starts: &[u32],
    entries: &[u32],
    begun: &mut [u32],
    hints: &mut [u8; Graph::MAX_VERTICES],
) -> bool
    requires { Flat store.now n other starts.now entries.now × (length begun.old ≡ block_entries) }
    ensures { result ≡ entries_reversed store.now n other starts.now entries.now }
{
    let mut next = 0;
    let mut base = 0;
    // The loop goes on at the next block.
    while base < entries.len() {
        lists_begun(starts, next, base, begun);
        if !block_reversed(store, n, other, block(entries, base), begun, hints) {
            return false;
        }
        next = begun[BLOCK - 1] as usize;
        base += BLOCK;
    }
    true
}

// Whether every list of a side is reversed on the other.
pub fn short_lists_reversed(store: &[u32], n: usize, m: usize, side: usize, other: usize) -> bool
    requires { Sides store.now n m side other }
    ensures { result ≡ side_reversed store.now n side other }
{
    let mut begun = [0u32; BLOCK];
    let mut hints = [0u8; Graph::MAX_VERTICES];
    let entries = side + n + 1;
    blocks_reversed(
        store,
        n,
        other,
        &store[side..entries],
        &store[entries..entries + m],
        &mut begun,
        &mut hints,
    )
}
