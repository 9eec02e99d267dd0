// Merging the lists of a side of the old store with the changes: what is in one of the two alone stays
// (document 02, request 8). The changes come by their keys, ascending: in a slice, or where that is empty
// as the file has them, which is the order of the forward side. Refusals and the whole store are
// `changes`; a backward side with too many changes is made by `store_transpose`.
#![tactic(auto)]

pub mod backward;

ghost use Rattle.std.specs.Prelude.{◌≡◌, ◌++◌, ℕ, suc, ◌+◌, ◌-◌, ◌/◌, ◌≤◌, ◌<◌, length, get_or, drop};
ghost use Rattle.graph.specs.Graph.{entry_end};
ghost use Rattle.change_file.specs.File.{change_count};
ghost use Rattle.change_merge.specs.Inner.Toggle.{toggled};
ghost use Rattle.change_merge.specs.Inner.Merge.{entries_of, side_keys, Keyed, next_entry, Mergeable};
ghost use Rattle.change_merge.specs.Inner.Merge.{side_words, keys_on, SideOf, Fitting, Copyable, Copied};
ghost use Rattle.change_merge.specs.Inner.Merge.{Moved};

use adjacency::neighbours;
use graph::Graph;

// How many words were written, and the number of the next change.
#[derive(Drop)]
pub struct Merged {
    // How many words were written.
    pub len: usize,
    // The number of the next change.
    pub next: usize,
}

// The j-th key of a side's changes.
fn side_key(file: &[u8], keys: &[u64], j: usize) -> u64
    requires { Keyed file.now keys.now × (j < change_count file.now) }
    ensures { result ≡ get_or (side_keys file.now keys.now) j 0 }
{
    if keys.len() == 0 {
        return change_file::change_key(file, j);
    }
    keys[j]
}

// The vertex of the j-th key.
fn vertex_at(file: &[u8], keys: &[u64], j: usize) -> usize
    requires { Keyed file.now keys.now × (j < change_count file.now) }
    ensures { result ≡ get_or (side_keys file.now keys.now) j 0 / entry_end }
{
    (side_key(file, keys, j) / Graph::ENTRY_END as u64) as usize
}

// The entry in the j-th key where it is one of vertex v, else one above all entries. No `Option`: so the
// merge asks nothing but which of two words is smaller, at the end of either list too.
fn next(file: &[u8], keys: &[u64], k: usize, v: usize, j: usize) -> u32
    requires { Keyed file.now keys.now × (k ≡ change_count file.now) × (j ≤ k) }
    ensures { result ≡ next_entry (side_keys file.now keys.now) v j }
{
    if j == k {
        return Graph::ENTRY_END;
    }
    let key = side_key(file, keys, j);
    if key / Graph::ENTRY_END as u64 != v as u64 {
        return Graph::ENTRY_END;
    }
    (key % Graph::ENTRY_END as u64) as u32
}

// Word i of a list; past its end one above all entries.
fn word(list: &[u32], i: usize) -> u32
    ensures { result ≡ get_or list.now i entry_end }
{
    if i < list.len() {
        list[i]
    } else {
        Graph::ENTRY_END
    }
}

// A vertex's list merged with its changes, of which `from` is the first. The words after its last change are
// copied at once.
fn merge_list(
    list: &[u32],
    file: &[u8],
    keys: &[u64],
    k: usize,
    v: usize,
    from: usize,
    out: &mut [u32],
) -> Merged
    requires keyed { Keyed file.now keys.now × (k ≡ change_count file.now) }
    requires mergeable { Mergeable list.now (side_keys file.now keys.now) v from (length out.old) }
    ensures words { out.new ≡ toggled list.now
        (entries_of v (drop from (side_keys file.now keys.now)))
        ++ drop (length (toggled list.now (entries_of v
        (drop from (side_keys file.now keys.now))))) out.old }
    ensures answer { (result.len ≡ length (toggled list.now
        (entries_of v (drop from (side_keys file.now keys.now)))))
        × (result.next
        ≡ from + length (entries_of v (drop from (side_keys file.now keys.now)))) }
{
    let mut at = from;
    let mut i = 0;
    let mut len = 0;
    let mut e = next(file, keys, k, v, from);
    // Two lists at once: the next word of either is gone on to.
    while e < Graph::ENTRY_END {
        let x = word(list, i);
        if x < e {
            out[len] = x;
            len += 1;
            i += 1;
        } else if x == e {
            i += 1;
            at += 1;
            e = next(file, keys, k, v, at);
        } else {
            out[len] = e;
            len += 1;
            at += 1;
            e = next(file, keys, k, v, at);
        }
    }
    let rest = list.len() - i;
    words::copy(&list[i..], rest, &mut out[len..]);
    Merged {
        len: len + rest,
        next: at,
    }
}

// The first words of one slice, less one number and more another, copied to the front of a second.
fn move_offsets(from: &[u32], count: usize, less: u32, more: u32, to: &mut [u32])
    requires { (count ≤ length from.now) × (count ≤ length to.old)
        × ((i : ℕ) → i < count → (less ≤ get_or from.now i 0)
        × (get_or from.now i 0 - less + more < 4294967296)) }
    ensures { Moved from.now count less more to.old to.new }
{
    for i in 0..count {
        to[i] = from[i] - less + more;
    }
}

// The lists of the vertices from v to before u copied at once after `len` entries, and their offsets moved.
// How many entries they are.
fn copy_lists(
    old: &[u32],
    n: usize,
    at: usize,
    v: usize,
    u: usize,
    len: usize,
    side: &mut [u32],
) -> usize
    requires { SideOf old.now n at (keys_on old.now n at)
        × Copyable (keys_on old.now n at) n v u len (length side.old) }
    ensures { Copied (keys_on old.now n at) n v u len side.old side.new
        result }
{
    let first = old[at + v];
    let count = (old[at + u] - first) as usize;
    words::copy(
        &old[at + n + 1 + first as usize..],
        count,
        &mut side[n + 1 + len..],
    );
    move_offsets(
        &old[at + v + 1..],
        u - v,
        first,
        len as u32,
        &mut side[v + 1..],
    );
    count
}

// A side of the old store, which begins at a word, merged with the changes: the offsets and the entries of
// the new side. The list of each changed vertex is merged, and those between are copied.
pub fn merge_side(
    old: &[u32],
    n: usize,
    at: usize,
    file: &[u8],
    keys: &[u64],
    k: usize,
    side: &mut [u32],
)
    requires side_of { SideOf old.now n at (keys_on old.now n at) }
    requires keyed { Keyed file.now keys.now × (k ≡ change_count file.now) }
    requires fitting { Fitting (keys_on old.now n at) (side_keys file.now keys.now) n (length side.old) }
    ensures { side.new ≡ side_words n (toggled (keys_on old.now n at)
        (side_keys file.now keys.now))
        ++ drop (suc n + length (toggled (keys_on old.now n at)
        (side_keys file.now keys.now))) side.old }
{
    side[0] = 0;
    let mut next = 0;
    let mut len = 0;
    let mut v = 0;
    // The loop goes on at the next vertex that has a change.
    while next < k {
        let u = vertex_at(file, keys, next);
        len += copy_lists(old, n, at, v, u, len, side);
        let list = neighbours(old, n, at, u);
        let merged = merge_list(list, file, keys, k, u, next, &mut side[n + 1 + len..]);
        next = merged.next;
        len += merged.len;
        side[u + 1] = len as u32;
        v = u + 1;
    }
    copy_lists(old, n, at, v, n, len, side);
}
