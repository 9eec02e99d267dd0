// Packed fields, the most significant bit first. A bit outside a file is written nowhere, and reads as 0.

pub fn add(a: usize, b: usize) -> usize {
    a.wrapping_add(b)
}

pub fn sub(a: usize, b: usize) -> usize {
    a.wrapping_sub(b)
}

// Turns bit i of a file over, if `bit` is 1.
pub fn flip(file: &mut [u8], i: usize, bit: u8) {
    if let Some(byte) = file.get_mut(i / 8) {
        *byte ^= bit << (7 - i % 8);
    }
}

// Puts a field into a file whose bits there are 0, or turns over those that are 1 in it; answers the bit
// position after it.
pub fn put_field(file: &mut [u8], at: usize, width: usize, value: usize) -> usize {
    let mut rest = value;
    for i in (0..width).rev() {
        flip(file, add(at, i), (rest % 2) as u8);
        rest /= 2;
    }
    add(at, width)
}

// Bit i of a file.
pub fn bit(file: &[u8], i: usize) -> usize {
    let byte = file.get(i / 8).copied().unwrap_or(0);
    ((byte >> (7 - i % 8)) % 2) as usize
}

// The bytes that so many bits take.
pub fn bytes_for(bits: usize) -> usize {
    add(bits, 7) / 8
}

// Writes a file of zeros field after field.
#[derive(Drop)]
pub struct Writer<'a> {
    file: &'a mut [u8],
    // The bit at which the next field begins.
    at: usize,
}

impl<'a> Writer<'a> {
    // From a bit on.
    pub fn new(file: &'a mut [u8], at: usize) -> Self {
        Writer { file, at }
    }

    pub fn put(&mut self, width: usize, value: usize) {
        self.at = put_field(self.file, self.at, width, value);
    }

    // The bytes up to here.
    pub fn bytes(&self) -> usize {
        bytes_for(self.at)
    }
}

// Reads a file field after field.
#[derive(Drop)]
pub struct Reader<'a> {
    file: &'a [u8],
    // The bit at which the next field begins.
    at: usize,
}

impl<'a> Reader<'a> {
    pub fn new(file: &'a [u8]) -> Self {
        Reader { file, at: 0 }
    }

    pub fn take(&mut self, width: usize) -> usize {
        let mut value = 0;
        for _ in 0..width {
            value = value << 1 | bit(self.file, self.at);
            self.at = add(self.at, 1);
        }
        value
    }
}
