// What a line says.
use crate::asks::{Coding, Row};
use crate::edits::{Byte, Circle, Edit};
use crate::search::{Candidates, Search};
use crate::words;
use plans::Ask;

/// A call of the library, or what is lent to the calls after it.
#[derive(Clone, Copy)]
pub enum Command<'a> {
    /// `begin N`, `add U V W` or `remove U V`
    Edit(Edit),
    /// `circle N STEP W COUNT`
    Circle(Circle),
    /// `lend L`: so many bytes are lent as the image.
    Lend(usize),
    /// `set AT BYTE`
    Set(Byte),
    /// `try AT BYTE`
    Try(Byte),
    /// `with M`: the margin.
    With(u64),
    /// `image`
    Image,
    /// `kind K P`
    Kind(Ask),
    /// `fill K P I COUNT`
    Fill(Row),
    /// `decode K P BITS COUNT`
    Decode(Coding<'a>),
    /// `encode K P PLAN COUNT`
    Encode(Coding<'a>),
    /// `plans` or `minimum`
    Search(Search),
    /// Nothing to answer.
    Remark,
}

impl<'a> Command<'a> {
    /// What a line says, by its first letter; what it asks for has the margin.
    pub fn parse(line: &'a [u8], margin: u64) -> Command<'a> {
        let letter = words::letter(line);
        if letter == b'#' {
            return Command::Remark;
        }
        let numbers = words::numbers(line);
        let [first, second, third, ..] = numbers;
        let ask = Ask {
            kind: first,
            parameter: second,
            margin,
        };
        match letter {
            b'b' => Command::Edit(Edit::Begin(first)),
            b'a' => Command::Edit(Edit::Add(first, second, words::weight(third))),
            b'r' => Command::Edit(Edit::Remove(first, second)),
            b'c' => Command::Circle(Circle::from(numbers)),
            b'l' => Command::Lend(first as usize),
            b's' => Command::Set(Byte::from(numbers)),
            b't' => Command::Try(Byte::from(numbers)),
            b'w' => Command::With(first),
            b'i' => Command::Image,
            b'k' => Command::Kind(ask),
            b'f' => Command::Fill(Row::new(ask, numbers)),
            b'd' => Command::Decode(Coding::new(ask, line)),
            b'e' => Command::Encode(Coding::new(ask, line)),
            b'p' => Command::Search(Search::new(Candidates::Plans, ask, numbers)),
            b'm' => Command::Search(Search::new(Candidates::Assignments, ask, numbers)),
            _ => Command::Remark,
        }
    }
}
