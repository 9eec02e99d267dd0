// The operation Apply changes: from an old store and a change file, the store of the edited graph, and
// refusals 27 to 29 (document 02, request 8). `specs/` has the edited graph, the answer, and what is
// claimed of both; one side is merged in `change_merge`, the file is read in `change_file`.
#![tactic(auto)]

ghost use Rattle.std.specs.Prelude.{◌≡◌, suc, ◌+◌, ◌*◌, ◌≤◌, ◌<◌, length};
ghost use Rattle.lists.specs.Lists.{range, count_if};
ghost use Rattle.graph.specs.Graph.{max_graph_edges};
ghost use Rattle.change_file.specs.File.{change_count, adds_in};
ghost use Rattle.changes.specs.Edit.{apply_fault, apply_answer, changed_store};
ghost use Rattle.change_file.specs.Inner.Reading.{Sized};
ghost use Rattle.refusals.specs.Inner.Refusals.{fault_of};

use graph::Graph;
use load::Loaded;
use refusals::Refusal;

mod edits;
mod fill;

// How many edges there are after k changes to m: one more for each addition, one less for each other change.
fn edited_edges(file: &[u8], k: usize, m: usize) -> usize
    requires sized { Sized file.now × (k ≡ change_count file.now) × (m < suc max_graph_edges) }
    requires k_bound { k ≤ m + 2 * count_if (adds_in file.now) (range k) }
    ensures { result + k ≡ m + 2 * count_if (adds_in file.now) (range k) }
{
    m + 2 * edits::additions(file, k) - k
}

// Refuses the first fault of an old store, a change file and a new store of so many words.
fn check_apply(old: &[u32], file: &[u8], room: usize) -> Result<(), Refusal>
    ensures { fault_of result ≡ apply_fault old.now file.now room }
{
    store_check::check_store(old)?;
    let g = Graph::of_store(old);
    let n = g.vertices;
    change_file::check_changes(file, n)?;
    let k = change_file::change_count(file);
    edits::check_edits(old, n, 2 + 2 * n, file, k)?;
    let m = edited_edges(file, k, g.edges);
    if Graph::MAX_EDGES < m {
        return Err(Refusal::ChangesMany);
    }
    if room < 4 + 4 * n + 2 * m {
        return Err(Refusal::StoreSmall);
    }
    Ok(())
}

// Answered as by Load: the refusal, with the new store untouched; or the counts of the edited graph, with its
// words in the new store. The old store is only read.
pub fn apply_changes(old: &[u32], file: &[u8], store: &mut [u32]) -> Loaded
    ensures answer { result ≡ apply_answer old.now file.now
        (length store.old) }
    ensures words { store.new ≡ changed_store old.now file.now
        store.old }
{
    match check_apply(old, file, store.len()) {
        Err(refusal) => Loaded {
            refusal: refusal.number(),
            vertices: 0,
            edges: 0,
        },
        Ok(()) => {
            let g = Graph::of_store(old);
            let n = g.vertices;
            let k = change_file::change_count(file);
            let m = edited_edges(file, k, g.edges);
            fill::fill(old, n, file, k, m, store);
            Loaded {
                refusal: 0,
                vertices: n,
                edges: m,
            }
        }
    }
}
