// A number in decimal, in columns of any width.
ghost use Rattle.std.specs.Prelude.{◌≡◌, ◌^◌, ◌<◌, length};
ghost use Rattle.sheet.specs.Decimal.{decimal, aligned};
ghost use Rattle.sheet.specs.Inner.Lines.{blanks};

// Writes a number right-aligned over blanks, from its last digit to its first. The byte of digit 0 is 48.
pub fn put_number(x: u32, columns: &mut [u8])
    requires { (0 < length columns.old) × (x < 10 ^ length columns.old)
        × (columns.old ≡ blanks (length columns.old)) }
    ensures { columns.new ≡ aligned (length columns.old) (decimal x) }
{
    let mut rest = x;
    for i in (0..columns.len()).rev() {
        columns[i] = (48 + rest % 10) as u8;
        rest = rest / 10;
        if rest == 0 {
            return;
        }
    }
}
