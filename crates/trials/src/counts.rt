// How much was compared and how much differs.
use crate::calls::Refusal;
use std::{fmt, io};

/// The subjects. A call that may be refused is counted by the number of the refusal that is expected, too, 0 for none.
#[derive(Debug, Clone, Copy, PartialEq, Eq)]
pub enum Subject {
    Sites,
    Edits,
    Tables,
    Rows,
    Energies,
    Decoded,
    Lists,
    Codes,
    Least,
}

impl Subject {
    /// The subjects, in the order of their lines.
    const ALL: [Subject; 9] = [
        Subject::Sites,
        Subject::Edits,
        Subject::Tables,
        Subject::Rows,
        Subject::Energies,
        Subject::Decoded,
        Subject::Lists,
        Subject::Codes,
        Subject::Least,
    ];

    /// The front of its line.
    fn name(self) -> &'static str {
        match self {
            Subject::Sites => "sites",
            Subject::Edits => "edits",
            Subject::Tables => "tables",
            Subject::Rows => "rows",
            Subject::Energies => "energy",
            Subject::Decoded => "decode",
            Subject::Lists => "lists",
            Subject::Codes => "codes",
            Subject::Least => "least",
        }
    }
}

/// How many were compared, and how many of these differ.
#[derive(Clone, Copy)]
struct Tally {
    compared: u64,
    differ: u64,
}

impl Tally {
    /// Nothing yet.
    const EMPTY: Tally = Tally {
        compared: 0,
        differ: 0,
    };

    /// One comparison more.
    fn add(&mut self, agrees: bool) {
        self.compared = self.compared.wrapping_add(1);
        if !agrees {
            self.differ = self.differ.wrapping_add(1);
        }
    }
}

impl fmt::Display for Tally {
    fn fmt<W: fmt::Write>(&self, f: &mut fmt::Formatter<W>) -> fmt::Result {
        let compared = self.compared;
        let differ = self.differ;
        write!(f, "{compared} compared, {differ} differ")
    }
}

/// What was compared of each subject, and of each number, up to 18, the highest of a refusal.
// 0 is no refusal, as the stored output counts it.
#[derive(Drop)]
pub struct Counts {
    subjects: [Tally; 9],
    numbers: [Tally; 19],
}

impl Counts {
    /// Nothing yet.
    pub fn new() -> Counts {
        Counts {
            subjects: [Tally::EMPTY; 9],
            numbers: [Tally::EMPTY; 19],
        }
    }

    /// One comparison of a subject.
    pub fn compared(&mut self, subject: Subject, agrees: bool) {
        self.subjects[subject as usize].add(agrees);
    }

    /// One call of a subject that is expected to succeed, or to be refused.
    pub fn called(&mut self, subject: Subject, expected: Result<(), Refusal>, agrees: bool) {
        self.compared(subject, agrees);
        // 0 is no refusal, as the stored output counts it. Two arms, as in meterplan and surveys: a function of `site` for
        // them would be one more public promise.
        let number = match expected {
            Ok(()) => 0,
            Err(refusal) => refusal.number() as usize,
        };
        self.numbers[number].add(agrees);
    }

    /// Prints a line for each subject, and for each number of which something was compared: not every number up to the highest is given.
    pub fn show(&self, rt: &impl Print) -> io::Result<()> {
        for subject in Subject::ALL {
            let name = subject.name();
            let tally = self.subjects[subject as usize];
            println!(rt; "{name:<7}: {tally}")?;
        }
        for (number, tally) in self.numbers.iter().enumerate() {
            if tally.compared != 0 {
                println!(rt; "number {number}: {tally}")?;
            }
        }
        Ok(())
    }
}
