// The stream's token reader: what stands at a cursor, in the next bytes, 32 at most.

#![tactic(auto)]

ghost use Rattle.std.specs.Prelude.{◌≡◌, ◌⊎◌, ◌≤◌, ◌<◌, ℕ, Bool, length, get_or};
ghost use Rattle.text.specs.Names.{name_byte, blank};
ghost use Rattle.tokens.specs.Tokens.{Means, front};
ghost use Rattle.tokens.specs.Inner.{Front, PassUpTo, WordIs, cut_at, OpensNumeric, Fewest};

// A place in a stream.
#[derive(Clone, Copy)]
pub struct Cursor {
    pub at: usize,
}

// A token. A name is where it starts and how many bytes it has.
#[derive(Clone, Copy)]
pub enum Event {
    Start { from: usize, len: usize },
    End { from: usize, len: usize },
    Empty { from: usize, len: usize },
    // Its code, and whether it is literal: not by a reference.
    Character(u32, bool),
}

// What stands at a cursor.
#[derive(Clone, Copy)]
pub enum Answer {
    // A token, and the cursor past it.
    Token(Event, Cursor),
    // A token if nothing follows: a carriage return that is the last byte there is.
    Waiting(Event, Cursor),
    // A token that is only begun.
    Begun,
    // No token, whole or begun.
    Bad,
    // A token of more than 32 bytes.
    Long,
}

impl Cursor {
    // What stands at the cursor. Past the end nothing stands, and nothing begins every token.
    pub fn read(self, s: &[u8]) -> Answer
        ensures { Means (front s.now self.at) self.at result }
    {
        let at = self.at;
        if s.len() < at {
            return Answer::Begun;
        }
        if s.len() - at < 32 {
            return read_front(&s[at..], at);
        }
        let end = at + 32;
        read_front(&s[at..end], at)
    }
}

// What the front f, which stands at `at`, starts with.
fn read_front(f: &[u8], at: usize) -> Answer
    requires { Front f.now at }
    ensures { Means f.now at result }
{
    if f.len() == 0 {
        return Answer::Begun;
    }
    let b = f[0];
    if b == 60 {
        if f.len() == 1 {
            return Answer::Begun;
        }
        if f[1] == 47 {
            return end_tag(f, at);
        }
        return open_tag(f, at);
    }
    if b == 38 {
        if f.len() == 1 {
            return Answer::Begun;
        }
        if f[1] == 35 {
            return numeric(f, at);
        }
        return reference(f, at);
    }
    if b == 13 {
        return line_end(f, at);
    }
    if b == 62 {
        return Answer::Bad;
    }
    character(f, at)
}

// A start tag or an empty tag: f starts with <, and no / follows.
fn open_tag(f: &[u8], at: usize) -> Answer
    requires front { Front f.now at }
    requires in_bounds { (2 ≤ length f.now) × (get_or f.now 0 0 ≡ 60) × (get_or f.now 1 0 ≡ 47 → ⊥) }
    ensures { Means f.now at result }
{
    if text::name_first(f[1]) {
        let to = name_end(f, 2);
        let close = blank_end(f, to);
        if close == f.len() {
            return cut(f.len());
        }
        let from = at + 1;
        let len = to - 1;
        let b = f[close];
        if b == 62 {
            return Answer::Token(Event::Start { from, len }, Cursor { at: at + close + 1 });
        }
        if b == 47 {
            if close + 1 == f.len() {
                return cut(f.len());
            }
            if f[close + 1] == 62 {
                return Answer::Token(Event::Empty { from, len }, Cursor { at: at + close + 2 });
            }
        }
        return Answer::Bad;
    }
    Answer::Bad
}

// An end tag: f starts with </.
fn end_tag(f: &[u8], at: usize) -> Answer
    requires front { Front f.now at }
    requires in_bounds { (2 ≤ length f.now) × (get_or f.now 0 0 ≡ 60) × (get_or f.now 1 0 ≡ 47) }
    ensures { Means f.now at result }
{
    if f.len() == 2 {
        return Answer::Begun;
    }
    if text::name_first(f[2]) {
        let to = name_end(f, 3);
        let close = blank_end(f, to);
        if close == f.len() {
            return cut(f.len());
        }
        let from = at + 2;
        let len = to - 2;
        if f[close] == 62 {
            return Answer::Token(Event::End { from, len }, Cursor { at: at + close + 1 });
        }
        return Answer::Bad;
    }
    Answer::Bad
}

// A token that a front was cut off from, the shortest having `len` bytes and one more: begun, unless that is too long.
fn cut(len: usize) -> Answer
    ensures { result ≡ cut_at len }
{
    if len < 32 {
        Answer::Begun
    } else {
        Answer::Long
    }
}

// Where the bytes from `from` on that pass the test end.
fn run_end<F: Fn(u8) -> bool>(f: &[u8], from: usize, passes: F) -> usize
    requires callable { F.IsAlwaysCallable passes }
    requires from_le_length { from ≤ length f.now }
    ensures { (p : ℕ → Bool) → ((x : ℕ) (r : Bool) → x < 256 → F.post passes x r → r ≡ p x) → PassUpTo p f.now from result }
{
    for i in from..f.len() {
        if !passes(f[i]) {
            return i;
        }
    }
    f.len()
}

// Where the name that goes on at `from` ends.
fn name_end(f: &[u8], from: usize) -> usize
    requires { from ≤ length f.now }
    ensures { PassUpTo name_byte f.now from result }
{
    run_end(f, from, text::name_byte)
}

// Where the white space from `from` on ends.
fn blank_end(f: &[u8], from: usize) -> usize
    requires { from ≤ length f.now }
    ensures { PassUpTo blank f.now from result }
{
    run_end(f, from, text::blank)
}

// A reference by name: f starts with &, and no # follows.
fn reference(f: &[u8], at: usize) -> Answer
    requires front { Front f.now at }
    requires in_bounds { (2 ≤ length f.now) × (get_or f.now 0 0 ≡ 38) × (get_or f.now 1 0 ≡ 35 → ⊥) }
    ensures { Means f.now at result }
{
    match compare(f, b"&amp;") {
        Word::Whole => return Answer::Token(Event::Character(38, false), Cursor { at: at + 5 }),
        Word::Begun => return Answer::Begun,
        Word::No => {}
    }
    match compare(f, b"&lt;") {
        Word::Whole => return Answer::Token(Event::Character(60, false), Cursor { at: at + 4 }),
        Word::Begun => return Answer::Begun,
        Word::No => {}
    }
    match compare(f, b"&gt;") {
        Word::Whole => return Answer::Token(Event::Character(62, false), Cursor { at: at + 4 }),
        Word::Begun => return Answer::Begun,
        Word::No => {}
    }
    match compare(f, b"&apos;") {
        Word::Whole => return Answer::Token(Event::Character(39, false), Cursor { at: at + 6 }),
        Word::Begun => return Answer::Begun,
        Word::No => {}
    }
    match compare(f, b"&quot;") {
        Word::Whole => return Answer::Token(Event::Character(34, false), Cursor { at: at + 6 }),
        Word::Begun => return Answer::Begun,
        Word::No => {}
    }
    Answer::Bad
}

// A reference by number: f starts with &#.
fn numeric(f: &[u8], at: usize) -> Answer
    requires front { Front f.now at }
    requires in_bounds { (2 ≤ length f.now) × (get_or f.now 0 0 ≡ 38) × (get_or f.now 1 0 ≡ 35) }
    ensures { Means f.now at result }
{
    if f.len() == 2 {
        return Answer::Begun;
    }
    if f[2] == 120 {
        return number(f, at, 3, 16);
    }
    number(f, at, 2, 10)
}

// Its digits, from `from` on, up to ; or to the end of f. A number past the last character is none at once: it would only grow, and in the end wrap.
fn number(f: &[u8], at: usize, from: usize, radix: u32) -> Answer
    requires front { Front f.now at }
    requires opens_numeric { OpensNumeric f.now from radix }
    ensures { Means f.now at result }
{
    let mut n = 0;
    for i in from..f.len() {
        let b = f[i];
        if b == 59 {
            if text::is_char(n) {
                return Answer::Token(Event::Character(n, false), Cursor { at: at + i + 1 });
            }
            return Answer::Bad;
        }
        let d = text::digit(b);
        if radix <= d {
            return Answer::Bad;
        }
        n = n * radix + d;
        if 1114111 < n {
            return Answer::Bad;
        }
    }
    cut(f.len() + wanted(n, radix))
}

// The fewest digits that come to a character after those which name n.
fn wanted(n: u32, radix: u32) -> usize
    requires { (n ≤ 0x10FFFF) × ((radix ≡ 10) ⊎ (radix ≡ 16)) }
    ensures { Fewest radix n result }
{
    if text::is_char(n) {
        return 0;
    }
    // All that one digit more comes to lies between carriage return and space.
    let low = n * radix;
    if 13 < low {
        if low + radix <= 32 {
            return 2;
        }
    }
    1
}

// A line end: f starts with carriage return.
fn line_end(f: &[u8], at: usize) -> Answer
    requires front { Front f.now at }
    requires in_bounds { (1 ≤ length f.now) × (get_or f.now 0 0 ≡ 13) }
    ensures { Means f.now at result }
{
    if f.len() == 1 {
        return Answer::Waiting(Event::Character(10, true), Cursor { at: at + 1 });
    }
    if f[1] == 10 {
        return Answer::Token(Event::Character(10, true), Cursor { at: at + 2 });
    }
    Answer::Token(Event::Character(10, true), Cursor { at: at + 1 })
}

// How a word compares with what f starts with.
#[derive(Clone, Copy)]
pub enum Word {
    // f starts with the word.
    Whole,
    // f is the word without one byte or more of its end.
    Begun,
    // Neither.
    No,
}

pub fn compare(f: &[u8], w: &[u8]) -> Word
    ensures { WordIs f.now w.now result }
{
    if f.starts_with(w) {
        return Word::Whole;
    }
    if w.starts_with(f) {
        return Word::Begun;
    }
    Word::No
}

// A character: f starts with none of < & > and carriage return.
fn character(f: &[u8], at: usize) -> Answer
    requires front { Front f.now at }
    requires in_bounds { (1 ≤ length f.now) × (get_or f.now 0 0 ≡ 60 → ⊥) × (get_or f.now 0 0 ≡ 38 → ⊥) × (get_or f.now 0 0 ≡ 62 → ⊥) × (get_or f.now 0 0 ≡ 13 → ⊥) }
    ensures { Means f.now at result }
{
    match text::decode(f) {
        text::Decoded::Whole(c, n) => Answer::Token(
            Event::Character(c, true),
            Cursor { at: at + n },
        ),
        text::Decoded::Begun => Answer::Begun,
        text::Decoded::Bad => Answer::Bad,
    }
}
