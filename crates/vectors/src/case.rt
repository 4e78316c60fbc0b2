// A case of the list: a group's letter, two hex digits, four times sixteen, and the input's bytes. What the Rust
// answered is the two digits, 0 or the number of a refusal, and the four figures.
use crate::groups::Answer;
use crate::{groups, hex};
use pixel::error::FourFigures;

// Where the input's digits start.
const INPUT: usize = 67;

// 0 and the figures of what was accepted, or the number and the figures of a refusal.
#[derive(Clone, Copy, PartialEq, Eq)]
struct Recorded {
    number: u64,
    figures: FourFigures,
}

impl From<Answer> for Recorded {
    fn from(answer: Answer) -> Self {
        match answer {
            Ok(figures) => Recorded { number: 0, figures },
            Err(e) => Recorded {
                number: e.number(),
                figures: e.figures(),
            },
        }
    }
}

#[derive(Clone, Copy)]
struct Case<'a> {
    letter: u8,
    recorded: Recorded,
    input: &'a [u8],
}

impl<'a> Case<'a> {
    // The case of a line, its input in a room; none where the line is no case, or the room is too small.
    fn read(line: &[u8], room: &'a mut [u8]) -> Option<Self> {
        let (letter, digits) = line.split_first()?;
        let (number, digits) = digits.split_first_chunk::<2>()?;
        let (figures, input) = digits.split_first_chunk::<64>()?;
        let ([a, b, c, d], []) = figures.as_chunks::<16>() else {
            return None;
        };
        Some(Case {
            letter: *letter,
            recorded: Recorded {
                number: hex::number(number)?,
                figures: [
                    hex::number(a)?,
                    hex::number(b)?,
                    hex::number(c)?,
                    hex::number(d)?,
                ],
            },
            input: hex::bytes(input, room)?,
        })
    }
}

// Whether the port answers the case of a line as the Rust did; never where the line is no case, or its input is
// longer than the room for it, which holds all that a page can.
pub fn agrees(line: &[u8]) -> bool {
    // Before the room is made, which takes longer than all else that a short line needs.
    if line.len() < INPUT {
        return false;
    }
    let mut room = [0u8; 32768];
    Case::read(line, &mut room).is_some_and(|case| {
        groups::asked(case.letter, case.input).map(Recorded::from) == Some(case.recorded)
    })
}
