// Bit-packed fields of any width up to 25 bits, read, and written by `put` (document 01, 'The three packed
// files'). Which fields a file has is said in `graph`, `query`, `plan` and `change_file`.
// `specs/Field.antt` says what a field is, `specs/Encode.antt` how numbers become bytes; `proofs/` has the
// laws, for any width.
#![tactic(auto)]

mod put;

ghost use Rattle.std.specs.Prelude.{◌≡◌, ◌+◌, ◌*◌, ◌/◌, ◌%◌, ◌^◌, ◌≤◌, ◌<◌, length, get_or};
ghost use Rattle.packed.specs.Field.{field_at, bytes_for, fill_set};

pub use put::put_field;

// The byte at `i`, 0 past the end.
fn byte(s: &[u8], i: usize) -> u8
    ensures { result ≡ get_or s.now i 0 }
{
    if i < s.len() { s[i] } else { 0 }
}

// Four bytes as one number, the first the most significant.
fn join(a: u8, b: u8, c: u8, d: u8) -> u64
    ensures { result ≡ ((a * 256 + b) * 256 + c) * 256 + d }
{
    u32::from_be_bytes([a, b, c, d]) as u64
}

// The 32 bits from byte `i` on, where there are as many.
fn inner_word(s: &[u8], i: usize) -> u64
    requires { i + 4 ≤ length s.now }
    ensures { result ≡ field_at s.now (8 * i) 32 }
{
    join(s[i], s[i + 1], s[i + 2], s[i + 3])
}

// The 32 bits from byte `i` on; bytes past the end count as 0. Only near a file's end are there fewer than
// four.
fn word(s: &[u8], i: usize) -> u64
    requires { i ≤ length s.now }
    ensures { result ≡ field_at s.now (8 * i) 32 }
{
    if 4 <= s.len() - i {
        return inner_word(s, i);
    }
    join(byte(s, i), byte(s, i + 1), byte(s, i + 2), byte(s, i + 3))
}

// The `width` bits of `w` that have `after` bits after them.
fn cut(w: u64, after: usize, width: usize) -> u64
    requires { (after ≤ 32) × (width ≤ 25) }
    ensures { result ≡ w / 2 ^ after % 2 ^ width }
{
    (w >> after) & ((1u64 << width) - 1)
}

// The number in the field of `width` bits that begins at bit `at`. Up to 7 bits stand before it in its first
// byte, so it lies in the 32 bits from there on.
pub fn field(s: &[u8], at: usize, width: usize) -> u32
    requires { (width ≤ 25) × (at + width ≤ 8 * length s.now) }
    ensures { result ≡ field_at s.now at width }
{
    let after = 32 - at % 8 - width;
    cut(word(s, at / 8), after, width) as u32
}

// The bytes that `bits` bits take, the last one filled.
pub fn bytes_for(bits: usize) -> usize
    requires { bits + 7 < 2 ^ 64 }
    ensures { result ≡ bytes_for bits }
{
    (bits + 7) / 8
}

// Whether a fill bit is set: one of those after the first `bits`, up to the end of their last byte.
pub fn fill_set(s: &[u8], bits: usize) -> bool
    requires { bytes_for bits ≤ length s.now }
    ensures { result ≡ fill_set s.now bits }
{
    field(s, bits, (8 - bits % 8) % 8) != 0
}
