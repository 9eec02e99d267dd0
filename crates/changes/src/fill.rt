// Writing the edited graph to the new store. The forward side is merged. The backward side of few changes is
// merged too; that of many is made from the new forward side, in the words of both, so that the forward one
// is merged again.
ghost use Rattle.std.specs.Prelude.{◌≡◌, ◌∷◌, ◌++◌, suc, ◌+◌, ◌*◌, ◌≤◌, ◌<◌, length, take, drop};
ghost use Rattle.graph.specs.Graph.{forward, backward};
ghost use Rattle.graph.specs.Store.{store_of, used_words};
ghost use Rattle.changes.specs.Edit.{edited_graph};
ghost use Rattle.changes.specs.Inner.Fill.{Accepted, many_changes, words_on, sides_of, HeadKept};

use change_merge::backward;
use graph::Graph;

// Few changes are fewer than this, since the square of their number is at most that of the edges.
const MANY: usize = 1024;

// The forward side.
fn forward_side(old: &[u32], n: usize, file: &[u8], k: usize, side: &mut [u32])
    requires { Accepted old.now n file.now k × (suc n + length (edited_graph old.now file.now).edges
        ≤ length side.old) }
    ensures { side.new ≡ words_on forward (edited_graph old.now file.now)
        ++ drop (suc n + length (edited_graph old.now file.now).edges)
        side.old }
{
    let none: [u64; 0] = [];
    change_merge::merge_side(old, n, 2 + 2 * n, file, &none, k, side);
}

// The backward side of few changes.
fn backward_side(old: &[u32], n: usize, file: &[u8], k: usize, side: &mut [u32])
    requires { Accepted old.now n file.now k × (k < many_changes)
        × (suc n + length (edited_graph old.now file.now).edges ≤ length side.old) }
    ensures { side.new ≡ words_on backward (edited_graph old.now file.now)
        ++ drop (suc n + length (edited_graph old.now file.now).edges)
        side.old }
{
    let at = Graph::of_store(old).backward();
    let mut keys = [0u64; MANY];
    backward::backward_keys(file, k, &mut keys);
    change_merge::merge_side(old, n, at, file, &keys[..k], k, side);
}

// Both sides merged.
fn merged_sides(old: &[u32], n: usize, file: &[u8], k: usize, m: usize, side: &mut [u32])
    requires { Accepted old.now n file.now k × (m ≡ length (edited_graph old.now file.now).edges)
        × (k < many_changes) × (n + 1 + m + (n + 1 + m) ≤ length side.old) }
    ensures { side.new ≡ sides_of (edited_graph old.now file.now)
        ++ drop (n + 1 + m + (n + 1 + m)) side.old }
{
    forward_side(old, n, file, k, side);
    backward_side(old, n, file, k, &mut side[n + 1 + m..]);
}

// The backward side made from the forward one.
fn transposed_sides(old: &[u32], n: usize, file: &[u8], k: usize, m: usize, side: &mut [u32])
    requires { Accepted old.now n file.now k × (m ≡ length (edited_graph old.now file.now).edges)
        × (n + 1 + m + (n + 1 + m) ≤ length side.old) }
    ensures { side.new ≡ sides_of (edited_graph old.now file.now)
        ++ drop (n + 1 + m + (n + 1 + m)) side.old }
{
    forward_side(old, n, file, k, side);
    store_transpose::transpose(side, n, m);
    forward_side(old, n, file, k, side);
}

// Both sides. Sorting few changes takes no more steps than there are edges.
fn sides(old: &[u32], n: usize, file: &[u8], k: usize, m: usize, side: &mut [u32])
    requires { Accepted old.now n file.now k × (m ≡ length (edited_graph old.now file.now).edges)
        × (n + 1 + m + (n + 1 + m) ≤ length side.old) }
    ensures { side.new ≡ sides_of (edited_graph old.now file.now)
        ++ drop (n + 1 + m + (n + 1 + m)) side.old }
{
    if k * k <= m {
        merged_sides(old, n, file, k, m, side);
    } else {
        transposed_sides(old, n, file, k, m, side);
    }
}

// N, M, the labels and the days, which stay.
fn fill_head(old: &[u32], n: usize, m: usize, store: &mut [u32])
    requires { HeadKept old.now n m (length store.old) }
    ensures { store.new ≡ (n ∷ m ∷ take (2 * n) (drop 2 old.now))
        ++ drop (2 + 2 * n) store.old }
{
    words::copy(
        &old[Graph::LABELS_AT..],
        2 * n,
        &mut store[Graph::LABELS_AT..],
    );
    store[0] = n as u32;
    store[1] = m as u32;
}

// The used words of the store.
pub fn fill(old: &[u32], n: usize, file: &[u8], k: usize, m: usize, store: &mut [u32])
    requires { Accepted old.now n file.now k × (m ≡ length (edited_graph old.now file.now).edges)
        × (used_words n m ≤ length store.old) }
    ensures { store.new ≡ store_of (edited_graph old.now file.now)
        ++ drop (used_words n m) store.old }
{
    fill_head(old, n, m, store);
    sides(old, n, file, k, m, &mut store[2 + 2 * n..]);
}
