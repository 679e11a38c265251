//! Changes of a graph, drawn by pseudo-random numbers.
ghost use Rattle.std.specs.Prelude.{◌<◌};

use crate::drawing::Draws;
use crate::matrix::{COUNT, Matrix, is_set, put};
use std::alloc::{AllocError, Global};

/// Numbers that go, and a chain with a line in which it and all that stays go forward.
#[derive(Drop)]
pub(super) struct Change {
    pub(super) gone: Vec<u8>,
    pub(super) chain: Vec<u8>,
    pub(super) line: Vec<u8>,
}

impl Draws {
    /// Each of the numbers with a chance of one in so many.
    fn some(&mut self, alloc: Global, chance: u8) -> Result<Vec<bool>, AllocError>
        requires { 0 < chance }
    {
        let mut marks = Vec::new(alloc);
        for _ in 0..COUNT {
            marks.push(self.below(chance) == 0)?;
        }
        Ok(marks)
    }

    /// A first line of some numbers.
    pub(super) fn start(&mut self, alloc: Global) -> Result<Vec<u8>, AllocError> {
        let nothing = Matrix::new(alloc)?;
        let left = self.some(alloc, 2)?;
        self.line(alloc, &nothing, left)
    }

    /// The marked numbers in a line in which what reaches another comes first.
    fn line(
        &mut self,
        alloc: Global,
        matrix: &Matrix,
        mut left: Vec<bool>,
    ) -> Result<Vec<u8>, AllocError> {
        let mut line = Vec::new(alloc);
        for _ in 0..COUNT {
            let start = self.below(COUNT);
            if let Some(next) = next_open(matrix, &left, start) {
                put(&mut left, usize::from(next), false);
                line.push(next)?;
            }
        }
        Ok(line)
    }

    /// Those of a line that are not there yet, and some of the others.
    fn chain(
        &mut self,
        alloc: Global,
        matrix: &Matrix,
        line: &[u8],
    ) -> Result<Vec<u8>, AllocError> {
        let mut chain = Vec::new(alloc);
        for number in line {
            if !matrix.has(*number) || self.below(3) == 0 {
                chain.push(*number)?;
            }
        }
        Ok(chain)
    }

    /// Numbers that go. They leave the matrix.
    fn gone(&mut self, alloc: Global, matrix: &mut Matrix) -> Result<Vec<u8>, AllocError> {
        let mut gone = Vec::new(alloc);
        let marks = self.some(alloc, 3)?;
        for number in 0..COUNT {
            if matrix.has(number) && is_set(&marks, usize::from(number)) {
                matrix.drop_number(number);
                gone.push(number)?;
            }
        }
        Ok(gone)
    }

    /// A change of what the matrix has, which is made there too.
    pub(super) fn change(
        &mut self,
        alloc: Global,
        matrix: &mut Matrix,
    ) -> Result<Change, AllocError> {
        let gone = self.gone(alloc, matrix)?;
        let mut marks = self.some(alloc, 4)?;
        for number in 0..COUNT {
            if matrix.has(number) {
                put(&mut marks, usize::from(number), true);
            }
        }
        let line = self.line(alloc, matrix, marks)?;
        let chain = self.chain(alloc, matrix, &line)?;
        matrix.link(&chain);
        Ok(Change { gone, chain, line })
    }
}

/// Is the number left, while none that reaches it is?
fn is_open(matrix: &Matrix, left: &[bool], number: u8) -> bool {
    for other in 0..COUNT {
        if is_set(left, usize::from(other)) && matrix.reaches(other, number) {
            return false;
        }
    }
    is_set(left, usize::from(number))
}

/// The first number that is open, from one on and then from the least.
fn next_open(matrix: &Matrix, left: &[bool], start: u8) -> Option<u8> {
    for number in start..COUNT {
        if is_open(matrix, left, number) {
            return Some(number);
        }
    }
    for number in 0..COUNT {
        if is_open(matrix, left, number) {
            return Some(number);
        }
    }
    None
}
