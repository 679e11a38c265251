//! What reaches what among a few numbers, by brute force.

use std::alloc::{AllocError, Global};

/// How many numbers there are.
pub(super) const COUNT: u8 = 10;

/// Which numbers are there, and for each pair whether the first reaches the second.
#[derive(Drop)]
pub(super) struct Matrix {
    there: Vec<bool>,
    reaches: Vec<bool>,
}

/// Is there a mark at the place?
pub(super) fn is_set(marks: &[bool], place: usize) -> bool {
    match marks.get(place) {
        Some(mark) => *mark,
        None => false,
    }
}

/// Changes the mark at a place, if it is one.
pub(super) fn put(marks: &mut Vec<bool>, place: usize, mark: bool) {
    if place < marks.len() {
        marks[place] = mark;
    }
}

/// Where the pair has its mark.
fn pair(a: u8, b: u8) -> usize {
    usize::from(a) * usize::from(COUNT) + usize::from(b)
}

impl Matrix {
    pub(super) fn new(alloc: Global) -> Result<Matrix, AllocError> {
        let there = vec![in alloc; false; 10]?;
        let reaches = vec![in alloc; false; 100]?;
        Ok(Matrix { there, reaches })
    }

    pub(super) fn has(&self, number: u8) -> bool {
        is_set(&self.there, usize::from(number))
    }

    pub(super) fn reaches(&self, a: u8, b: u8) -> bool {
        is_set(&self.reaches, pair(a, b))
    }

    /// Takes a number out, with its row and its column. What others reach through it stays.
    pub(super) fn drop_number(&mut self, number: u8) {
        put(&mut self.there, usize::from(number), false);
        for other in 0..COUNT {
            put(&mut self.reaches, pair(number, other), false);
            put(&mut self.reaches, pair(other, number), false);
        }
    }

    /// Puts in the numbers of a chain and its edges.
    pub(super) fn link(&mut self, chain: &[u8]) {
        let mut last = None;
        for number in chain {
            put(&mut self.there, usize::from(*number), true);
            if let Some(before) = last {
                put(&mut self.reaches, pair(before, *number), true);
            }
            last = Some(*number);
        }
        self.close();
    }

    /// What reaches a number reaches all that the number reaches.
    fn close(&mut self) {
        for middle in 0..COUNT {
            for a in 0..COUNT {
                for b in 0..COUNT {
                    if self.reaches(a, middle) && self.reaches(middle, b) {
                        put(&mut self.reaches, pair(a, b), true);
                    }
                }
            }
        }
    }
}
