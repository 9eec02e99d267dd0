// Parts of lent words cleared, copied and moved, for the crates that write a store, a scratch or a word
// list. What is in the words is not its matter. Run's scratch is cleared by it (document 01, 'Cost and
// scratch').
#![tactic(auto)]

ghost use Rattle.std.specs.Prelude.{◌≡◌, ◌++◌, ◌+◌, ◌-◌, ◌≤◌, ◌<◌, length, take, drop, replicate};

const BLOCK: usize = 4096;

// Zeros in every word.
pub fn clear(part: &mut [u32])
    ensures { part.new ≡ replicate (length part.old) 0 }
{
    part.fill(0);
}

// How many words are not 0. The sum takes no branch.
fn set_words(part: &[u32]) -> u32
    requires { length part.now < 4294967296 }
    ensures { result ≡ 0 → part.now ≡ replicate (length part.now) 0 }
{
    let mut sum = 0;
    for word in part {
        sum += u32::from(*word != 0);
    }
    sum
}

// Where the zeros at the end begin, up to a block of words.
fn used(part: &[u32]) -> usize
    ensures { (result ≤ length part.now) × (drop result part.now
        ≡ replicate (length part.now - result) 0) }
{
    let mut end = part.len();
    while BLOCK <= end {
        if set_words(&part[end - BLOCK..end]) != 0 {
            return end;
        }
        end -= BLOCK;
    }
    end
}

// Zeros in every word, of which those at the end are read before they are written: memory that was never
// written is not written now.
pub fn clear_used(part: &mut [u32])
    ensures { part.new ≡ replicate (length part.old) 0 }
{
    let end = used(part);
    clear(&mut part[..end]);
}

// The first `count` words of one slice, copied to the front of another.
pub fn copy(from: &[u32], count: usize, to: &mut [u32])
    requires { (count ≤ length from.now) × (count ≤ length to.old) }
    ensures { to.new ≡ take count from.now ++ drop count to.old }
{
    to[..count].copy_from_slice(&from[..count]);
}

// The `count` words from `from` on, moved down to the front of their part. A loop, since in a page, which is
// compiled for 32 bits, the library's `copy_within` loses the ends of its range (docs/DESIGN-PASS.md).
pub fn move_down(part: &mut [u32], from: usize, count: usize)
    requires { from + count ≤ length part.old }
    ensures { part.new ≡ take count (drop from part.old)
        ++ drop count part.old }
{
    for i in 0..count {
        part[i] = part[from + i];
    }
}
