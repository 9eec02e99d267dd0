// The entries of the word list: an ordering's numbers, then its cost.
ghost use Rattle.std.specs.Prelude.{◌≡◌, ◌++◌, ◌+◌, ◌*◌, ◌≤◌, length, take};
ghost use Rattle.plan_spectrum.specs.Spectrum.{cost_words};
ghost use Rattle.plan_spectrum.specs.Inner.Parts.{Put, entries_in};

use words::copy;

// Writes a cost, high word first.
fn put_cost(cost: u64, out: &mut [u32])
    requires { 2 ≤ length out.old }
    ensures { Put (cost_words cost) out.old out.new }
{
    out[0] = (cost / 4294967296) as u32;
    out[1] = (cost % 4294967296) as u32;
}

// Writes an entry whose ordering begins a list.
fn put_entry(list: &[u32], width: usize, cost: u64, out: &mut [u32])
    requires { (width ≤ length list.now) × (width + 2 ≤ length out.old) }
    ensures { Put (take width list.now ++ cost_words cost) out.old
        out.new }
{
    copy(list, width, out);
    put_cost(cost, &mut out[width..]);
}

// Writes the entries of so many orderings that lie in a list, each of so many numbers.
pub fn write_entries(width: usize, plans: usize, list: &[u32], costs: &[u64], out: &mut [u32])
    requires { (plans * width ≤ length list.now) × (plans ≤ length costs.now)
        × (plans * (width + 2) ≤ length out.old) × (width ≤ 4) }
    ensures { Put (entries_in width plans list.now costs.now) out.old
        out.new }
{
    let each = width + 2;
    for k in 0..plans {
        put_entry(&list[k * width..], width, costs[k], &mut out[k * each..]);
    }
}
