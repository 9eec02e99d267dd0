// The change file, what it is and how it is read: a count (20 bits), then for each change a bit (1 add, 0
// take away), a source (16), a label (8) and a target (16); and refusal 27 (document 02, request 8). What
// changes do to a graph stands in `changes`.
#![tactic(auto)]

ghost use Rattle.std.specs.Prelude.{◌≡◌, not, suc, ◌+◌, ◌*◌, ◌≤◌, ◌<◌, length};
ghost use Rattle.lists.specs.Lists.{range, all};
ghost use Rattle.lists.specs.Refusal.{refuse};
ghost use Rattle.graph.specs.Graph.{max_graph_vertices, max_graph_edges, entry_end, forward, entry, key};
ghost use Rattle.change_file.specs.File.{change_count, adds_in, changed_edge, change_fits, change_fault};
ghost use Rattle.change_file.specs.Inner.Reading.{Sized, change_length_fault};
ghost use Rattle.refusals.specs.Inner.Refusals.{fault_of};

use graph::Graph;
use packed::field;
use refusals::Refusal;

pub fn change_count(file: &[u8]) -> usize
    requires { 3 ≤ length file.now }
    ensures { (result ≡ change_count file.now) × (result < suc max_graph_edges) }
{
    field(file, 0, 20) as usize
}

// Whether change i adds its edge, or takes it away.
pub fn adds(file: &[u8], i: usize) -> bool
    requires { Sized file.now × (i < change_count file.now) }
    ensures { result ≡ adds_in file.now i }
{
    field(file, 20 + 41 * i, 1) == 1
}

pub fn source(file: &[u8], i: usize) -> u32
    requires { Sized file.now × (i < change_count file.now) }
    ensures { (result ≡ (changed_edge file.now i).source) × (result < suc max_graph_vertices) }
{
    field(file, 21 + 41 * i, 16)
}

// The entry of change i on the forward side: its label and its target, which are 24 bits together.
pub fn forward_entry(file: &[u8], i: usize) -> u32
    requires { Sized file.now × (i < change_count file.now) }
    ensures { (result ≡ entry forward (changed_edge file.now i)) × (result < entry_end) }
{
    field(file, 37 + 41 * i, 24)
}

// (source, label, target) of change i as one number.
pub fn change_key(file: &[u8], i: usize) -> u64
    requires { Sized file.now × (i < change_count file.now) }
    ensures { result ≡ key forward (changed_edge file.now i) }
{
    source(file, i) as u64 * Graph::ENTRY_END as u64 + forward_entry(file, i) as u64
}

// Refuses a file whose length is not its own size, or that has a fill bit set.
fn check_length(file: &[u8]) -> Result<(), Refusal>
    ensures { fault_of result ≡ change_length_fault file.now }
{
    if file.len() < 3 {
        return Err(Refusal::ChangesFile);
    }
    let bits = 20 + 41 * change_count(file);
    if file.len() != packed::bytes_for(bits) || packed::fill_set(file, bits) {
        return Err(Refusal::ChangesFile);
    }
    Ok(())
}

// Refuses an edge that has a vertex outside 0 to n - 1 or label 0, or does not ascend. `least` is one more
// than the key of the change before.
fn check_edges(file: &[u8], n: usize, k: usize) -> Result<(), Refusal>
    requires { Sized file.now × (k ≡ change_count file.now) }
    ensures { fault_of result ≡ refuse 27 (not (all (change_fits n file.now) (range k))) }
{
    let mut least = 0;
    for i in 0..k {
        let s = source(file, i);
        let e = forward_entry(file, i);
        if n <= s as usize || n <= (e % Graph::SPAN) as usize || e < Graph::SPAN {
            return Err(Refusal::ChangesFile);
        }
        let key = change_key(file, i);
        if key < least {
            return Err(Refusal::ChangesFile);
        }
        least = key + 1;
    }
    Ok(())
}

// Refuses a change file at fault for a graph of n vertices.
pub fn check_changes(file: &[u8], n: usize) -> Result<(), Refusal>
    ensures { fault_of result ≡ change_fault n file.now }
{
    check_length(file)?;
    check_edges(file, n, change_count(file))
}
