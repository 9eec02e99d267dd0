// The lines of a page.
ghost use Rattle.std.specs.Prelude.{◌≡◌, ◌+◌, ◌-◌, ◌*◌, ◌^◌, ◌≤◌, ◌<◌, length, take, drop, replicate};
ghost use mathlib.Core.List.{[], ◌∷◌, ◌++◌, flat_map};
ghost use Rattle.matching.specs.Row.{rows_of};
ghost use Rattle.sheet.specs.Page.{columns, number_columns, page_rows, page_size, field, line};
ghost use Rattle.sheet.specs.Inner.Lines.{blanks, blank_lines, Fitting};

use crate::PageAnswer;
use crate::number::put_number;

// Writes numbers over blanks, from the first column on.
pub fn put_numbers(numbers: &[u32], text: &mut [u8])
    requires { (number_columns * length numbers.now ≤ length text.old)
        × (text.old ≡ blanks (length text.old))
        × Fitting numbers.now }
    ensures { text.new ≡ flat_map field numbers.now
        ++ blanks (length text.old - number_columns * length numbers.now) }
{
    for (i, &number) in numbers.iter().enumerate() {
        let at = PageAnswer::NUMBER_COLUMNS * i;
        put_number(number, &mut text[at..at + PageAnswer::NUMBER_COLUMNS]);
    }
}

// Writes a blank line.
fn put_blank_line(text: &mut [u8])
    requires { length text.old ≡ columns + 1 }
    ensures { text.new ≡ line [] }
{
    text[..PageAnswer::COLUMNS].fill(b' ');
    text[PageAnswer::COLUMNS] = b'\n';
}

// Writes a blank page: whatever stood in its bytes is gone.
pub fn put_blank_lines(bytes: &mut [u8])
    requires { page_size ≤ length bytes.old }
    ensures { bytes.new ≡ blank_lines (1 + page_rows) ++ drop page_size bytes.old }
{
    for i in 0..1 + PageAnswer::ROWS {
        let at = PageAnswer::LINE_BYTES * i;
        put_blank_line(&mut bytes[at..at + PageAnswer::LINE_BYTES]);
    }
}

// Writes the page number and the page count over the first line, which is blank.
pub fn put_heading(page: usize, pages: usize, bytes: &mut [u8])
    requires { (page < 10 ^ number_columns) × (pages < 10 ^ number_columns)
        × (take (columns + 1) bytes.old ≡ line []) }
    ensures { bytes.new
        ≡ line (page ∷ pages ∷ []) ++ drop (columns + 1) bytes.old }
{
    let numbers = [page as u32, pages as u32];
    put_numbers(&numbers, &mut bytes[..PageAnswer::COLUMNS]);
}

// Writes rows of n words over blank lines, a line each.
pub fn put_rows(words: &[u32], n: usize, rows: usize, lines: &mut [u8])
    requires { (number_columns * n ≤ columns) × (rows ≤ page_rows) × (length words.now ≡ n * rows)
        × Fitting words.now × (lines.old ≡ blank_lines page_rows) }
    ensures { lines.new
        ≡ flat_map line (rows_of n rows words.now ++ replicate (page_rows - rows) []) }
{
    for i in 0..rows {
        let at = PageAnswer::LINE_BYTES * i;
        let from = n * i;
        put_numbers(
            &words[from..from + n],
            &mut lines[at..at + PageAnswer::COLUMNS],
        );
    }
}
