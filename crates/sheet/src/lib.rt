// The operation Page: one page of a list's rows as text, of 60 lines of 80 columns, and refusals 33 to 35
// (document 02, request 13). `specs/` says what every byte is, when a page is refused and what the pages
// hold together; `proofs/` has the laws. Names in place of numbers are the program's, not the engine's.
#![tactic(auto)]

mod large;
mod lines;
mod number;

ghost use Rattle.std.specs.Prelude.{◌≡◌, ◌++◌, ◌≤◌, length, drop};
ghost use Rattle.lists.specs.Refusal.{refuse};
ghost use Rattle.refusals.specs.Inner.Refusals.{number, fault_of};
ghost use Rattle.sheet.specs.Page.{page_size, max_rows, page_count, bad_rows, page_fault};
ghost use Rattle.sheet.specs.Page.{page_text, page_answer, page_bytes};
ghost use Rattle.sheet.specs.Claims.{SheetsHoldEveryRow};
ghost use Rattle.sheet.specs.Inner.Lines.{Accepted};

use query::Query;
use refusals::Refusal;
use run_spec::RunAnswer;

// What a page answers: a refusal with 0, or 0 with the page count.
#[derive(Drop)]
pub struct PageAnswer {
    // 0 where the page is written. A number, as the definition `page_answer` gives it.
    pub refusal: u32,
    // How many pages there are.
    pub pages: usize,
}

impl PageAnswer {
    // Rows of a list, and the largest number in one.
    pub const MAX_ROWS: usize = 536870912;

    pub const MAX_WORD: u32 = 65535;

    // Rows of a page, columns of a line and of a number in it.
    pub const ROWS: usize = 59;

    pub const COLUMNS: usize = 80;

    pub const NUMBER_COLUMNS: usize = 8;

    // Bytes of a line, with its line feed, and of a page.
    pub const LINE_BYTES: usize = 81;

    pub const BYTES: usize = 4860;

    fn refused(refusal: Refusal) -> Self
        ensures { result ≡ record { refusal = number refusal; pages = 0 } }
    {
        PageAnswer {
            refusal: refusal.number(),
            pages: 0,
        }
    }
}

// Refuses what is not a match list: n and the rows are tested before their product is taken, and then every
// word of the rows.
fn check_rows(list: &[u32], n: usize, rows: usize) -> Result<(), Refusal>
    ensures { fault_of result ≡ refuse 33 (bad_rows list.now n rows) }
{
    if n < Query::MIN_VERTICES || Query::MAX_VERTICES < n || PageAnswer::MAX_ROWS < rows {
        return Err(Refusal::SheetRows);
    }
    let count = n * rows;
    if list.len() < count || RunAnswer::MAX_WORDS < count || large::any_large(&list[..count]) {
        return Err(Refusal::SheetRows);
    }
    Ok(())
}

// The page count.
fn page_count(rows: usize) -> usize
    requires { rows ≤ max_rows }
    ensures { result ≡ page_count rows }
{
    rows.div_ceil(PageAnswer::ROWS).max(1)
}

// Refuses rows that are not a match list's, then a page that is not one of theirs, then too few bytes for
// one.
fn check_page(list: &[u32], n: usize, rows: usize, page: usize, room: usize) -> Result<(), Refusal>
    ensures { fault_of result ≡ page_fault list.now n rows page room }
{
    check_rows(list, n, rows)?;
    if page < 1 || page_count(rows) < page {
        return Err(Refusal::SheetPage);
    }
    if room < PageAnswer::BYTES {
        return Err(Refusal::SheetBytes);
    }
    Ok(())
}

// Writes a page that is not refused: a blank one, then its heading and its rows.
fn put_page(list: &[u32], n: usize, rows: usize, page: usize, pages: usize, bytes: &mut [u8])
    requires { Accepted list.now n rows page pages (length bytes.old) }
    ensures { bytes.new
        ≡ page_text list.now n rows page ++ drop page_size bytes.old }
{
    lines::put_blank_lines(bytes);
    lines::put_heading(page, pages, bytes);
    let first = PageAnswer::ROWS * (page - 1);
    let count = PageAnswer::ROWS.min(rows - first);
    let from = n * first;
    lines::put_rows(
        &list[from..from + n * count],
        n,
        count,
        &mut bytes[PageAnswer::LINE_BYTES..PageAnswer::BYTES],
    );
}

// Fills one page of a list of rows of n words, and answers the page count. Over all pages the bytes hold
// every row once, in list order.
pub fn page(list: &[u32], n: usize, rows: usize, page: usize, bytes: &mut [u8]) -> PageAnswer
    ensures answer { result ≡ page_answer list.now n rows page (length bytes.old) }
    ensures bytes { bytes.new
        ≡ page_bytes list.now n rows page bytes.old }
    ensures sheets { SheetsHoldEveryRow list.now n rows bytes.old }
{
    match check_page(list, n, rows, page, bytes.len()) {
        Err(refusal) => PageAnswer::refused(refusal),
        Ok(()) => {
            let pages = page_count(rows);
            put_page(list, n, rows, page, pages, bytes);
            PageAnswer { refusal: 0, pages }
        }
    }
}
