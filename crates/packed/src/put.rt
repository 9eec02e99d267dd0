// The packed files' field writer, the counterpart of `field`.
ghost use Rattle.std.specs.Prelude.{◌≡◌, ◌+◌, ◌*◌, ◌^◌, ◌≤◌, ◌<◌, length, set};
ghost use Rattle.packed.specs.Inner.Put.{put_field, put_word};

use crate::{cut, word};

// Writes a byte, where there is one at `i`.
fn put_byte(s: &mut [u8], i: usize, b: u8)
    ensures { s.new ≡ set s.old i b }
{
    if i < s.len() {
        s[i] = b;
    }
}

// Writes 32 bits from byte `i` on; bytes past the end are left out.
fn put_word(s: &mut [u8], i: usize, w: u64)
    requires { i ≤ length s.old }
    ensures { s.new ≡ put_word s.old i w }
{
    put_byte(s, i, (w / 16777216 % 256) as u8);
    put_byte(s, i + 1, (w / 65536 % 256) as u8);
    put_byte(s, i + 2, (w / 256 % 256) as u8);
    put_byte(s, i + 3, (w % 256) as u8);
}

// Writes a number to the field of `width` bits that begins at bit `at`; all other bits stay. As in `field`,
// the field lies in the 32 bits from its first byte on: there what it held is taken away and the number put
// in its place.
pub fn put_field(s: &mut [u8], at: usize, width: usize, x: u32)
    requires { (width ≤ 25) × (at + width ≤ 8 * length s.old) × (x < 2 ^ width) }
    ensures { s.new ≡ put_field s.old at width x }
{
    let after = 32 - at % 8 - width;
    let w = word(s, at / 8);
    let old = cut(w, after, width);
    put_word(s, at / 8, w - (old << after) + ((x as u64) << after));
}
