use crate::does::Does;

/// A line, and the values that stand in it.
#[derive(Drop)]
pub struct Line {
    /// Its number in the file, from 1 on.
    pub number: usize,
    pub does: Does,
    pub words: Vec<String>,
    /// Its numbers, in order; of `settled` and `unsettled` 1 and 0.
    pub numbers: Vec<u64>,
    /// Its bytes, in order.
    pub bytes: Vec<Vec<u8>>,
    /// Its words, with the bytes that stand in it as they are shown. Of a reply and an answer what is behind the `=`.
    pub shown: String,
}

impl Line {
    /// The number at this place; 0 where there is none.
    pub fn number(&self, at: usize) -> u64 {
        match self.numbers.get(at) {
            Some(number) => *number,
            None => 0,
        }
    }

    pub fn number_u8(&self, at: usize) -> u8 {
        match u8::try_from(self.number(at)) {
            Ok(number) => number,
            Err(_) => u8::MAX,
        }
    }

    pub fn number_u16(&self, at: usize) -> u16 {
        match u16::try_from(self.number(at)) {
            Ok(number) => number,
            Err(_) => u16::MAX,
        }
    }

    pub fn number_u32(&self, at: usize) -> u32 {
        match u32::try_from(self.number(at)) {
            Ok(number) => number,
            Err(_) => u32::MAX,
        }
    }

    pub fn size(&self, at: usize) -> usize {
        match usize::try_from(self.number(at)) {
            Ok(size) => size,
            Err(_) => usize::MAX,
        }
    }

    /// The bytes at this place; none where there are none.
    pub fn bytes(&self, at: usize) -> &[u8] {
        match self.bytes.get(at) {
            Some(bytes) => bytes,
            None => &[],
        }
    }
}
