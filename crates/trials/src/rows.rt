// Bit counts, penalties, constants and rows, whose numbers the reference gives by inclusion and exclusion of energies.
use crate::calls::{self, Refusal};
use crate::cases::Case;
use crate::counts::{Counts, Subject};
use crate::slices::{NUMBER_PATTERN, front, front_mut};
use reference::ROOM;

/// How many numbers are lent for a row of an accepted case: more than any row has.
const LENT: usize = 160;

/// A row, with what is lent behind it.
type Row = [i64; LENT];

impl Case<'_> {
    /// The energy of the assignment in which just these are set.
    fn energy_with(&self, set: &[usize]) -> u64 {
        let mut bits = [0; ROOM];
        for i in set {
            if *i < bits.len() {
                bits[*i] = 1;
            }
        }
        self.energy_of(&bits)
    }
}

/// plus - minus.
fn difference(plus: u64, minus: u64) -> i64 {
    plus.wrapping_sub(minus).cast_signed()
}

/// The row that is asked for: its number, how many numbers are lent, and how long the part is, or why it is refused.
#[derive(Clone, Copy)]
struct Asked {
    i: u64,
    lent: usize,
    answer: Result<usize, Refusal>,
}

impl Asked {
    /// How long the part is: empty where it is refused.
    fn length(&self) -> usize {
        self.answer.unwrap_or(0)
    }

    /// Whether it is refused.
    fn expected(&self) -> Result<(), Refusal> {
        self.answer.map(|_| ())
    }
}

impl Case<'_> {
    /// How long a row is; `None` where there is none.
    pub fn row_length(&self, i: u64) -> Option<usize> {
        let length = self.bits.checked_sub(i as usize)?;
        (length != 0).then_some(length)
    }

    /// How long the part of a row is, or why it is refused: 10 precedes 9.
    fn part_length(&self, i: u64, lent: usize) -> Result<usize, Refusal> {
        self.accepted?;
        let length = self.row_length(i).ok_or(Refusal::Row)?;
        if lent < length {
            return Err(Refusal::Length);
        }
        Ok(length)
    }

    /// The number of bit i, then those of the pairs of i with each higher bit, and the pattern behind.
    fn expected_row(&self, asked: Asked) -> Row {
        let mut row = [NUMBER_PATTERN; LENT];
        let Ok(length) = asked.answer else {
            return row;
        };
        let i = asked.i as usize;
        let none = self.energy_with(&[]);
        let own = self.energy_with(&[i]);
        for (k, number) in front_mut(&mut row, length).iter_mut().enumerate() {
            let j = i.wrapping_add(k);
            *number = if k == 0 {
                difference(own, none)
            } else {
                let both = self.energy_with(&[i, j]);
                let other = self.energy_with(&[j]);
                difference(both.wrapping_add(none), own.wrapping_add(other))
            };
        }
        row
    }

    /// Whether row gives back the part that is expected, and leaves what is expected.
    fn row_agrees(&self, asked: Asked, expected: &Row) -> bool {
        let mut out = [NUMBER_PATTERN; LENT];
        let lent = front_mut(&mut out, asked.lent);
        let part = calls::row(self.image, self.ask, asked.i, lent);
        let part_agrees = *part == *front(expected, asked.length());
        part_agrees && out == *expected
    }

    /// Whether fill_row and row_refusal answer as they should, and leave what is expected.
    fn fill_agrees(&self, asked: Asked, expected: &Row) -> bool {
        let lent = front(expected, asked.lent);
        if calls::row_refusal(self.image, self.ask, asked.i, lent) != asked.expected() {
            return false;
        }
        let mut out = [NUMBER_PATTERN; LENT];
        let lent = front_mut(&mut out, asked.lent);
        let filled = calls::fill_row(self.image, self.ask, asked.i, lent);
        filled == asked.expected() && out == *expected
    }

    /// One row, with so many numbers lent: as it should be, or refused and nothing altered.
    pub fn compare_row(&self, i: u64, lent: usize, counts: &mut Counts) {
        let answer = self.part_length(i, lent);
        let asked = Asked { i, lent, answer };
        let row = self.expected_row(asked);
        let expected = asked.expected();
        counts.called(Subject::Rows, expected, self.row_agrees(asked, &row));
        counts.called(Subject::Rows, expected, self.fill_agrees(asked, &row));
    }

    /// All rows.
    pub fn compare_rows(&self, counts: &mut Counts) {
        for i in 0..self.bits {
            self.compare_row(i as u64, LENT, counts);
        }
    }

    /// Whether bit count, penalty and constant are as they should be, or refused. The constant is the energy of all zeros.
    fn table_agrees(&self) -> bool {
        let (image, ask) = (self.image, self.ask);
        let constant = self.energy_with(&[]).cast_signed();
        calls::bit_count(image, ask) == self.accepted.map(|()| self.bits)
            && calls::penalty(image, ask) == self.accepted.map(|()| self.penalty)
            && calls::constant(image, ask) == self.accepted.map(|()| constant)
    }

    /// Bit count, penalty and constant.
    pub fn compare_table(&self, counts: &mut Counts) {
        counts.called(Subject::Tables, self.accepted, self.table_agrees());
    }
}
