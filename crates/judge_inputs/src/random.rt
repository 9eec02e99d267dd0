// A stream of numbers that is the same in every run (xorshift, 64 bits).

#[derive(Clone, Copy)]
pub struct Random {
    state: u64,
}

impl Random {
    pub fn new(seed: u64) -> Self {
        Random { state: seed }
    }

    fn next(&mut self) -> u64 {
        let a = self.state ^ (self.state << 13);
        let b = a ^ (a >> 7);
        let c = b ^ (b << 17);
        self.state = c;
        c >> 11
    }

    // A number below n; 0 where n is 0.
    pub fn below(&mut self, n: usize) -> usize {
        let x = self.next() as usize;
        if n == 0 { 0 } else { x % n }
    }

    // True so many times of a hundred.
    pub fn chance(&mut self, percent: usize) -> bool {
        self.below(100) < percent
    }

    // One of a few; 0 where there is none.
    pub fn pick<const N: usize>(&mut self, few: [usize; N]) -> usize {
        let i = self.below(N);
        few.get(i).copied().unwrap_or(0)
    }
}
