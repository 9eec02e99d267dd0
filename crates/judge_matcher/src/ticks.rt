// The rows of a match list, ticked off against the matches of the matcher.
use crate::lent::*;
use crate::matcher::Row;
use crate::slices::*;
use crate::tally::*;
use judge_inputs::graphs::Graph;

const MAX_MATCHES: usize = 2048;

#[derive(Clone, Copy)]
pub struct Matches {
    // The rows of the matches, ascending, as far as there is room.
    rows: [u32; MAX_MATCHES],
    // How often the lists so far had each.
    ticks: [u32; MAX_MATCHES],
    // How many matches there are.
    pub total: usize,
}

// The row of places of a list's row; None where a vertex has no place.
fn row_of(g: &Graph, vertices: &[u32]) -> Option<Row> {
    let mut row = Row { bits: 0 };
    for (v, vertex) in vertices.iter().enumerate() {
        row = row.moved_on(v, g.place(*vertex as usize)?);
    }
    Some(row)
}

impl Matches {
    // None yet.
    pub fn none() -> Self {
        Matches {
            rows: [0; MAX_MATCHES],
            ticks: [0; MAX_MATCHES],
            total: 0,
        }
    }

    // Lists a match, as far as there is room.
    pub fn put(&mut self, row: Row) {
        self.rows[self.total % MAX_MATCHES] = row.bits;
        self.total = self.total.wrapping_add(1);
    }

    // There was room for all.
    pub fn are_listed(&self) -> bool {
        self.total < MAX_MATCHES
    }

    // Ticks a row off; answers whether it is a match, and was ticked off once for each of so many lists.
    fn tick_off(&mut self, row: Row, lists: u32) -> bool {
        match first(&self.rows, self.total).binary_search(&row.bits) {
            Ok(i) => {
                let ticks = self.ticks[i % MAX_MATCHES].wrapping_add(1);
                self.ticks[i % MAX_MATCHES] = ticks;
                ticks == lists
            }
            Err(_) => false,
        }
    }

    // The last of so many lists has every match as a row, once, and no other row.
    pub fn are_rows(
        &mut self,
        g: &Graph,
        lists: u32,
        rows: usize,
        width: usize,
        list: &List,
    ) -> bool {
        for vertices in list.chunks_exact(width.max(1)).take(rows) {
            let ticked = match row_of(g, vertices) {
                Some(row) => self.tick_off(row, lists),
                None => false,
            };
            if !ticked {
                return false;
            }
        }
        rows == self.total
    }

    // Two lists had each match once, and so the same rows.
    pub fn judge_pair(&self, files: &Files, other: &Files, tally: &mut Tally<impl Print>) {
        let twice = first(&self.ticks, self.total).iter().all(|t| *t == 2);
        tally.judge(PAIRS, twice);
        tally.count(UNLIKE, (files != other) as u64);
    }
}
