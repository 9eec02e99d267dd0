// A program of the tests: worked pages (document 02, request 13), those of lists that end before, at and
// after the end of a page, written over one another into the same bytes, and the refusals. Before each
// page stand its refusal and its page count, and after it the bytes past it, which stay. What must come
// out, `stdout`, is by a writer that shares no code with the sheet: the tests in `tests/` compare it with
// theirs. Matches are judged by `judge`.
#![tactic(auto)]

ghost use Rattle.std.specs.Prelude.{◌<◌};

use std::io;

const WORDS: usize = 952;

const BYTES: usize = 4864;

// The widths of the lists, and their rows.
const LISTS: [(usize, usize); 7] = [
    (2, 0),
    (8, 1),
    (2, 58),
    (8, 59),
    (2, 60),
    (8, 118),
    (2, 119),
];

// The words of 119 rows of 8, of one to five digits, the first of them the largest there may be, and one put
// in place of another.
fn words(at: usize, word: u32) -> [u32; WORDS]
    requires { at < 952 }
{
    let mut list = [65535u32; WORDS];
    for i in 1..WORDS {
        list[i] = (i * 331 % 65536) as u32;
    }
    list[at] = word;
    list
}

// Writes what a page answers, and the bytes where there is one; answers the page count.
fn show(
    rt: &impl Print,
    list: &[u32],
    n: usize,
    rows: usize,
    page: usize,
    bytes: &mut [u8],
) -> io::Result<usize> {
    let answer = sheet::page(list, n, rows, page, bytes);
    let refusal = answer.refusal;
    let pages = answer.pages;
    println!(rt; "{refusal} {pages}")?;
    if refusal == 0 {
        rt.write_all(bytes)?;
        println!(rt; "")?;
    }
    Ok(pages)
}

// The pages of a list: the first, then from the last down.
fn show_pages(
    rt: &impl Print,
    list: &[u32],
    n: usize,
    rows: usize,
    bytes: &mut [u8],
) -> io::Result<()> {
    let pages = show(rt, list, n, rows, 1, bytes)?;
    for page in (2..=pages).rev() {
        show(rt, list, n, rows, page, bytes)?;
    }
    Ok(())
}

// Each condition of 33, the product of 8 and the rows that is 0 in 64 bits among them; pages that there are
// not.
fn show_refused(rt: &impl Print, list: &[u32], bytes: &mut [u8]) -> io::Result<()> {
    show(rt, list, 1, 119, 1, bytes)?;
    show(rt, list, 9, 100, 1, bytes)?;
    show(rt, list, 8, 2305843009213693952, 1, bytes)?;
    show(rt, list, 8, 120, 1, bytes)?;
    show(rt, list, 8, 119, 0, bytes)?;
    show(rt, list, 8, 119, 4, bytes)?;
    Ok(())
}

// A page in one byte too few.
fn show_short(rt: &impl Print, list: &[u32], bytes: &mut [u8; BYTES]) -> io::Result<()> {
    show(rt, list, 8, 119, 3, &mut bytes[..4859])?;
    Ok(())
}

// 65,536 in the last of 119 rows is refused on every page, before a page that there is not and too few bytes
// are; past 118 rows it is not read.
fn show_large(rt: &impl Print, bytes: &mut [u8]) -> io::Result<()> {
    let list = words(236, 65536);
    show(rt, &list, 2, 119, 1, bytes)?;
    show(rt, &list, 2, 119, 0, &mut [])?;
    show(rt, &list, 2, 118, 2, bytes)?;
    Ok(())
}

fn main(rt: HostRuntime) -> io::Result<()> {
    let mut bytes = [63u8; BYTES];
    let list = words(0, 65535);
    for (n, rows) in LISTS {
        show_pages(&rt, &list, n, rows, &mut bytes)?;
    }
    show_refused(&rt, &list, &mut bytes)?;
    show_short(&rt, &list, &mut bytes)?;
    show_large(&rt, &mut bytes)
}
