// The heads of a table of build rows as a number of 64 bits that stops at the largest, as the sums and the
// products of bounds do.
ghost use Rattle.std.specs.Prelude.{◌≡◌};
ghost use Rattle.operator_spec.specs.Join.{heads};
ghost use Rattle.plan_bounds.specs.Answer.{given};

// The largest power of two of 64 bits.
const LAST_POWER: u64 = 9223372036854775808;

// The smallest power of two not below b, 1 for 0.
pub fn heads(b: u64) -> u64
    ensures { result ≡ given (heads b) }
{
    if LAST_POWER < b {
        return u64::MAX;
    }
    b.next_power_of_two()
}
