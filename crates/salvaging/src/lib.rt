// Salvaging: where reading resumes in a part of the stream.

#![tactic(auto)]

ghost use Rattle.std.specs.Prelude.{◌≡◌};
ghost use Rattle.salvaging.specs.Resumed.{joined_words, EitherIs, ResumedIs};

use tokens::Word;

// Where reading resumes in a part.
#[derive(Clone, Copy)]
pub enum Resumed {
    // One of the two byte strings stands here.
    Here(usize),
    // From here on the part begins one of them, and ends before it is whole.
    Waits(usize),
    // Nowhere, whatever follows the part.
    Nowhere,
}

// How two words compare with the same bytes: as the one that is whole, else as one that is begun.
fn joined(one: Word, other: Word) -> Word
    ensures { result ≡ joined_words one other }
{
    match one {
        Word::Whole => return Word::Whole,
        Word::Begun => {}
        Word::No => return other,
    }
    match other {
        Word::Whole => return Word::Whole,
        Word::Begun => {}
        Word::No => {}
    }
    Word::Begun
}

// How the two byte strings compare with what f starts with.
fn either(f: &[u8], first: &[u8], second: &[u8]) -> Word
    ensures { EitherIs first.now second.now f.now result }
{
    let one = tokens::compare(f, first);
    let other = tokens::compare(f, second);
    joined(one, other)
}

// The first place from `from` on at which one of the two byte strings stands, or at which the part begins one.
pub fn resumption(part: &[u8], from: usize, first: &[u8], second: &[u8]) -> Resumed
    ensures { ResumedIs first.now second.now part.now from result }
{
    for at in from..part.len() {
        match either(&part[at..], first, second) {
            Word::Whole => return Resumed::Here(at),
            Word::Begun => return Resumed::Waits(at),
            Word::No => {}
        }
    }
    Resumed::Nowhere
}
