// The drawn plan's file: the operator count (5 bits), the scan's kind (2) and edge (5), then each extend's
// kind (2) and vertex (3).
ghost use Rattle.std.specs.Prelude.{◌≡◌, ℕ, ◌+◌, ◌-◌, ◌*◌, ◌^◌, ◌≤◌, ◌<◌, length, drop};
ghost use mathlib.Core.List.{List, ◌++◌, flat_map};
ghost use Rattle.packed.specs.Field.{bytes_for};
ghost use Rattle.packed.specs.Encode.{bytes_of};
ghost use Rattle.packed.specs.Inner.Put.{written};
ghost use Rattle.query.specs.Query.{edge_at};
ghost use Rattle.query.specs.Inner.Struct.{query_in};
ghost use Rattle.query.specs.Inner.Mask.{in_mask};
ghost use Rattle.plan.specs.Plan.{ends};
ghost use Rattle.plan_order.specs.Order.{extends_from};
ghost use Rattle.planner.specs.Draw.{scan_bits, extend_bits, plan_bits};
ghost use Rattle.plan_order.specs.Inner.Counts.{Drawable};

use packed::put_field;
use plan::Plan;
use plan_order::next_vertex;
use query::{Query, set};

// The bits of the count and the scan, and those of an extend.
const SCAN_BITS: usize = 12;

const EXTEND_BITS: usize = 5;

// The bits of the plan of a query of n vertices.
fn plan_bits(n: usize) -> usize
    requires { (2 ≤ n) × (n ≤ 8) }
    ensures { result ≡ 12 + 5 * (n - 2) }
{
    SCAN_BITS + EXTEND_BITS * (n - 2)
}

// The bytes of that plan.
pub fn plan_bytes(n: usize) -> usize
    requires { (2 ≤ n) × (n ≤ 8) }
    ensures { result ≡ bytes_for (12 + 5 * (n - 2)) }
{
    packed::bytes_for(plan_bits(n))
}

// Writes the count and the scan.
fn put_scan(plan: &mut [u8], operators: usize, edge: usize)
    requires { (2 ≤ length plan.old) × (operators < 2 ^ 5) × (edge < 2 ^ 5) }
    ensures { plan.new ≡ written plan.old (scan_bits operators edge) }
{
    put_field(plan, 0, 5, operators as u32);
    put_field(plan, 5, 2, Plan::SCAN);
    put_field(plan, 7, 5, edge as u32);
}

// Writes an extend at a position.
fn put_extend(plan: &mut [u8], at: usize, v: usize)
    requires { (at < 64) × (at + 5 ≤ 8 * length plan.old) × (v < 2 ^ 3) }
    ensures { (old bits : List ℕ) → plan.old ≡ written old bits → length bits ≡ at
        → plan.new ≡ written old (bits ++ extend_bits v) }
{
    put_field(plan, at, 2, Plan::EXTEND);
    put_field(plan, at + 2, 3, v as u32);
}

// Writes the extends after the set that the scan covers.
fn put_extends(q: Query, set: u32, plan: &mut [u8])
    requires { Drawable q × (12 + 5 * (q.vertices - 2) ≤ 8 * length plan.old) }
    ensures { (old bits : List ℕ) → plan.old ≡ written old bits → length bits ≡ 12
        → plan.new ≡ written old (bits ++ flat_map extend_bits
        (extends_from (query_in q) (in_mask set) (q.vertices - 2))) }
{
    let extends = q.vertices - 2;
    let mut covered = set;
    let mut at = SCAN_BITS;
    for _i in 0..extends {
        let v = next_vertex(q, covered);
        put_extend(plan, at, v);
        covered = set::only(v) | covered;
        at += EXTEND_BITS;
    }
}

// Writes the whole plan and the zero bits that fill its last byte.
pub fn put_plan(q: Query, edge: usize, plan: &mut [u8])
    requires { Drawable q × (edge < q.edges) × (bytes_for (12 + 5 * (q.vertices - 2))
        ≤ length plan.old) }
    ensures { plan.new ≡ bytes_of (plan_bits edge
        (extends_from (query_in q) (ends (edge_at (query_in q) edge)) (q.vertices - 2)))
        ++ drop (bytes_for (12 + 5 * (q.vertices - 2))) plan.old }
{
    put_scan(plan, q.vertices - 1, edge);
    put_extends(q, plan::ends(q.edge(edge)), plan);
    let bits = plan_bits(q.vertices);
    put_field(plan, bits, (8 - bits % 8) % 8, 0);
}
