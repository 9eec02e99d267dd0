// Refusal 28: adding a present edge or taking an absent one.
ghost use Rattle.std.specs.Prelude.{◌≡◌, true, ◌≤◌, ◌<◌, eqb};
ghost use Rattle.lists.specs.Lists.{any, ascending, range, count_if};
ghost use Rattle.search.specs.Inner.Search.{first_from};
ghost use Rattle.graph.specs.Store.{graph_in};
ghost use Rattle.change_file.specs.File.{change_count, adds_in, changes_of};
ghost use Rattle.changes.specs.Edit.{edit_fault};
ghost use Rattle.change_file.specs.Inner.Reading.{Sized};
ghost use Rattle.changes.specs.Inner.Edits.{Editable};
ghost use Rattle.refusals.specs.Inner.Refusals.{fault_of};

use adjacency::neighbours;
use refusals::Refusal;
use search::{lower_bound, walk_up};

// The first index of an ascending list whose word is not below x: word by word from the hint on, where the
// word before it is below x, else by a search. Changes of one vertex ascend, so that the place of one is a
// hint for the next, and all of them together walk a list once. Any hint will do. (`search::seek` would do
// for both, but a second caller takes it out of the walk along two lists.)
fn place(list: &[u32], x: u32, hint: usize) -> usize
    requires { ascending list.now ≡ true }
    ensures { result ≡ first_from list.now 0 x }
{
    if hint == 0 || list.len() < hint || x <= list[hint - 1] {
        return lower_bound(list, x);
    }
    walk_up(list, hint, x)
}

// Whether x stands at its place in an ascending list.
fn stands(list: &[u32], x: u32, place: usize) -> bool
    requires { (ascending list.now ≡ true) × (place ≡ first_from list.now 0 x) }
    ensures { result ≡ any (eqb x) list.now }
{
    place < list.len() && list[place] == x
}

// Refuses a change that adds a present edge or takes an absent one. The forward side of the old store
// begins at a word.
pub fn check_edits(old: &[u32], n: usize, at: usize, file: &[u8], k: usize) -> Result<(), Refusal>
    requires { Editable old.now n at file.now k }
    ensures { fault_of result ≡ edit_fault (graph_in old.now) (changes_of file.now) }
{
    let mut hint = 0;
    for i in 0..k {
        let list = neighbours(old, n, at, change_file::source(file, i) as usize);
        let e = change_file::forward_entry(file, i);
        hint = place(list, e, hint);
        if stands(list, e, hint) == change_file::adds(file, i) {
            return Err(Refusal::ChangesEdge);
        }
    }
    Ok(())
}

// How many of the changes add.
pub fn additions(file: &[u8], k: usize) -> usize
    requires { Sized file.now × (k ≡ change_count file.now) }
    ensures { (result ≡ count_if (adds_in file.now) (range k)) × (result ≤ k) }
{
    let mut sum = 0;
    for i in 0..k {
        sum += usize::from(change_file::adds(file, i));
    }
    sum
}
