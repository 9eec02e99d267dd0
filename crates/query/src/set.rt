// Sets of query vertices as masks: vertex w is in the set where the bit of 2^w is 1. A union is `|`, an
// intersection `&`.
ghost use Rattle.std.specs.Prelude.{◌≡◌, not, ◌&&◌, ℕ, ◌<◌, ltb};
ghost use Rattle.query.specs.Inner.Mask.{in_mask, MaskOf, only};

// Whether the vertex is in the set.
pub fn member(set: u32, w: usize) -> bool
    requires { w < 32 }
    ensures { result ≡ in_mask set w }
{
    (set >> w) % 2 == 1
}

// The set of one vertex.
pub fn only(w: usize) -> u32
    requires { w < 32 }
    ensures { MaskOf result (only w) }
{
    1 << w
}

// The vertices below n.
pub fn below(n: usize) -> u32
    requires { n < 32 }
    ensures { MaskOf result (λ (w : ℕ). ltb w n) }
{
    (1 << n) - 1
}

// The vertices of a that b lacks.
pub fn minus(a: u32, b: u32) -> u32
    ensures { MaskOf result (λ (w : ℕ). in_mask a w && not (in_mask b w)) }
{
    a ^ (a & b)
}
