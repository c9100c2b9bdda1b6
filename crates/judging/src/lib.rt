// What is told of a text of declarations wherever the machine of bytes stands, and that every text has an answer, in specs/; the number of a byte at which no text goes on.

#![tactic(auto)]

ghost use Rattle.std.specs.Prelude.{length};
ghost use Rattle.tells.specs.Tells.{Tells};
ghost use Rattle.models.specs.Answers.{WordAt, EntityAt, AttlistAt};
ghost use Rattle.judging.specs.Standing.{AnyTold, NumberAt};

// Whether the word stands at the front, and no byte of a name behind it.
fn word_stands(front: &[u8], word: &[u8]) -> bool
    ensures { Tells (WordAt word.now front.now) result }
{
    match tokens::compare(front, word) {
        tokens::Word::Whole => {}
        tokens::Word::Begun => return false,
        tokens::Word::No => return false,
    }
    if word.len() < front.len() {
        if text::name_byte(front[word.len()]) {
            return false;
        }
        return true;
    }
    true
}

// Whether the A of ANY stands here, where a content may begin.
fn any_at(text: &[u8], at: usize, content: bool) -> bool
    ensures { AnyTold text.now at content result }
{
    if content {
        if at < text.len() {
            return word_stands(&text[at..], b"ANY");
        }
        return false;
    }
    false
}

// Whether % or & stands here, or the N of <!ENTITY.
fn entity_at(text: &[u8], at: usize) -> bool
    ensures { Tells (EntityAt text.now at) result }
{
    if at < text.len() {
        let b = text[at];
        if b == 37 {
            return true;
        }
        if b == 38 {
            return true;
        }
        if 3 <= at {
            return word_stands(&text[at - 3..], b"<!ENTITY");
        }
        return false;
    }
    false
}

// Whether the A of <!ATTLIST stands here.
fn attlist_at(text: &[u8], at: usize) -> bool
    ensures { Tells (AttlistAt text.now at) result }
{
    if at < text.len() {
        if 2 <= at {
            return word_stands(&text[at - 2..], b"<!ATTLIST");
        }
        return false;
    }
    false
}

// The number of a byte at which no text goes on: 50, 51, 52 or 55. `content`: a content may begin there.
pub fn number_at(text: &[u8], at: usize, content: bool) -> usize
    ensures { NumberAt text.now at content result }
{
    if any_at(text, at, content) {
        return 50;
    }
    if entity_at(text, at) {
        return 51;
    }
    if attlist_at(text, at) {
        return 52;
    }
    55
}
