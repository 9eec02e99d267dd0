// The operation Load: the graph file's faults, and the store of sorted labelled neighbour lists that an
// accepted file is loaded to (document 01, 'The store'; 000, section 7). The file's fields are read by
// `graph_file`; what a store is, `graph` says.
#![tactic(auto)]

ghost use Rattle.std.specs.Prelude.{◌≡◌, length};
ghost use Rattle.graph.specs.Store.{load_store};
ghost use Rattle.load.specs.Answer.{load_answer};

use graph_file::GraphFile;

mod fill;

// What Load answers: a refusal with zeros, or 0 with the counts.
#[derive(Clone, Copy)]
pub struct Loaded {
    // 0 where the graph is in the store. A number, as the definitions `load_answer` and `apply_answer` give
    // it.
    pub refusal: u32,
    // N.
    pub vertices: usize,
    // M.
    pub edges: usize,
}

// The refusal of a file or of a store that is too small, with the store untouched; or the counts, with the
// graph in the store.
pub fn load(file: &[u8], store: &mut [u32]) -> Loaded
    ensures answer { result ≡ load_answer file.now (length store.old) }
    ensures words { store.new ≡ load_store file.now store.old }
{
    match graph_file::check_load(file, store.len()) {
        Err(refusal) => Loaded {
            refusal: refusal.number(),
            vertices: 0,
            edges: 0,
        },
        Ok(()) => {
            let whole = GraphFile::of(file);
            fill::fill(whole, store);
            Loaded {
                refusal: 0,
                vertices: whole.graph.vertices,
                edges: whole.graph.edges,
            }
        }
    }
}
