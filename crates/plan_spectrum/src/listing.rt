// The orderings of a query, in order: by recursion on the number of uncovered vertices, which falls by one at
// each extend.
ghost use Rattle.std.specs.Prelude.{◌≡◌, [], ◌≤◌, ◌<◌, length, take};
ghost use Rattle.query.specs.Inner.Struct.{query_in, Held};
ghost use Rattle.query.specs.Inner.Mask.{in_mask};
ghost use Rattle.plan_spectrum.specs.Orders.{extends, orders_from, orderings};
ghost use Rattle.plan_spectrum.specs.Inner.Parts.{Lists, Listed, Small};

use plan::ends;
use query::{Query, set};
use words::copy;

// An extend by v of rows that cover a set breaks no rule.
fn may_extend(q: Query, set: u32, v: usize) -> bool
    requires { Held q × (v < 32) }
    ensures { result ≡ extends (query_in q) (in_mask set) v }
{
    !set::member(set, v) && q.adjacent(v) & set != 0
}

// Lists the orders of the vertices that a set lacks, of which so many are left, each after the first `at`
// numbers of a row.
fn put_orders(q: Query, set: u32, left: usize, row: [u32; 4], at: usize, out: &mut [u32]) -> usize
    requires { Lists q set left row at out.old }
    ensures { Listed (take at row) (orders_from (query_in q) (in_mask set) left) out.old
        out.new result }
{
    if left == 0 {
        copy(&row, at, out);
        return 1;
    }
    let width = at + left;
    let mut found = 0;
    for v in 0..q.vertices {
        if may_extend(q, set, v) {
            let mut next = row;
            next[at] = v as u32;
            found += put_orders(
                q,
                set::only(v) | set,
                left - 1,
                next,
                at + 1,
                &mut out[found * width..],
            );
        }
    }
    found
}

// Lists all orderings of a query.
pub fn list_orderings(q: Query, out: &mut [u32]) -> usize
    requires { Small q × (576 ≤ length out.old) }
    ensures { Listed [] (orderings (query_in q)) out.old out.new result × (result ≤ 144) }
{
    let width = q.vertices - 1;
    let mut found = 0;
    for i in 0..q.edges {
        let mut row = [0u32; 4];
        row[0] = i as u32;
        found += put_orders(
            q,
            ends(q.edge(i)),
            q.vertices - 2,
            row,
            1,
            &mut out[found * width..],
        );
    }
    found
}
