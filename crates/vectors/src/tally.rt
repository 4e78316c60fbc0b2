// How many cases of each group there were, and how many agreed, with a line for each.
use std::{fmt, io};

// What the groups are of the letters from a to o.
const GROUPS: [&str; 15] = [
    "header cut short",
    "header with one fault",
    "header with several faults",
    "header accepted",
    "header made",
    "room for a picture",
    "header written",
    "channel counts",
    "colour spaces",
    "decode accepted",
    "decode refused",
    "decode corners",
    "encode accepted",
    "encode refused",
    "encode corners",
];

#[derive(Clone, Copy)]
struct Count {
    cases: u64,
    agreed: u64,
}

impl Count {
    const ZERO: Count = Count {
        cases: 0,
        agreed: 0,
    };

    fn add(&mut self, agrees: bool) {
        self.cases = self.cases.saturating_add(1);
        self.agreed = self.agreed.saturating_add(u64::from(agrees));
    }
}

impl fmt::Display for Count {
    fn fmt<W: fmt::Write>(&self, f: &mut fmt::Formatter<W>) -> fmt::Result {
        let Count { cases, agreed } = *self;
        write!(f, "{agreed} of {cases} agree")
    }
}

// A count of each group, and one for every other letter.
#[derive(Clone, Copy)]
pub struct Tally {
    groups: [Count; 15],
    others: Count,
}

impl Tally {
    pub fn new() -> Self {
        Tally {
            groups: [Count::ZERO; 15],
            others: Count::ZERO,
        }
    }

    // One case more of the group that a letter names.
    pub fn add(&mut self, letter: u8, agrees: bool) {
        let place = usize::from(letter.wrapping_sub(b'a'));
        match self.groups.get_mut(place) {
            Some(count) => count.add(agrees),
            None => self.others.add(agrees),
        }
    }

    pub fn report(&self, rt: &impl Print) -> io::Result<()> {
        for (name, count) in GROUPS.iter().zip(&self.groups) {
            println!(rt; "{name}: {count}")?;
        }
        if 0 < self.others.cases {
            println!(rt; "of no group: {}", self.others)?;
        }
        Ok(())
    }
}
