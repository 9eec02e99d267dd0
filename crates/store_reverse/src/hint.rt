// One word sought in a list by a hint of where it stands.
ghost use Rattle.std.specs.Prelude.{◌≡◌, true, ◌<◌};
ghost use Rattle.lists.specs.Lists.{ascending};
ghost use Rattle.graph.specs.Graph.{max_graph_vertices};
ghost use Rattle.adjacency.specs.Inner.Portion.{member};

use graph::Graph;
use search::find;

// Whether the ascending list of a vertex has a word, by the vertex's hint of where the word stands: the place
// after the last word hinted, up to a multiple of 256. Lists are walked by ascending vertex, so that of one
// label the next reverse in a list is the next word. A hint that fails is left, if a word stands there: that
// may be of another label, and come later. Any hint will do.
pub fn has_hinted(
    list: &[u32],
    x: u32,
    hints: &mut [u8; Graph::MAX_VERTICES],
    vertex: usize,
) -> bool
    requires { (ascending list.now ≡ true) × (vertex < max_graph_vertices) }
    ensures { result ≡ member x list.now }
{
    let hint = hints[vertex] as usize;
    let Some(place) = find(list, x, hint) else {
        return false;
    };
    if hint < list.len() && hint != place {
        return true;
    }
    hints[vertex] = ((place + 1) % 256) as u8;
    true
}
