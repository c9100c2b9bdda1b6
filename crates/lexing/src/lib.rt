// Spellings that bytes begin with, sort by sort: a whole one with its number, or the byte at which none of the sort goes on.

#![tactic(auto)]

ghost use Rattle.std.specs.Prelude.{◌≡◌, true, false, [], ◌++◌, ◌≤◌, ◌<◌, max, length, get_or};
ghost use Rattle.text.specs.Names.{name_byte};
ghost use Rattle.notation.specs.Tokens.{decimal};
ghost use Rattle.notation.specs.Spelled.{word_byte};
ghost use Rattle.lexing.specs.Reads.{Common, ReadIs, stops_at, nothing, OneSpelling, NumberBehind, NameRun, NameSpelling, TagSpelling, CharSpelling, width_of, escape_byte, PieceSpelling, StringSpelling};

#[derive(Clone, Copy)]
pub enum Tried {
    // One of the sort, its number, and how many bytes it takes.
    Whole(usize, usize),
    // None; so many bytes begin one.
    Stuck(usize),
}

// Whether the byte is a letter, a digit or _.
pub fn word_byte(b: u8) -> bool
    ensures { result ≡ word_byte b }
{
    text::name_first(b) | ((48 <= b) & (b <= 57))
}

// How many bytes two have in common in front.
fn common(x: &[u8], w: &[u8]) -> usize
    ensures { Common x.now w.now result }
{
    for (i, b) in w.iter().enumerate() {
        if i == x.len() {
            return i;
        }
        if x[i] != *b {
            return i;
        }
    }
    w.len()
}

// What is spelled a and then b, and has the number n. `joins`: no letter, digit or _ may follow it.
fn fixed(x: &[u8], a: &[u8], b: &[u8], joins: bool, n: usize) -> Tried
    ensures { ReadIs (OneSpelling (a.now ++ b.now) n) (stops_at joins) x.now result }
{
    let k = common(x, a);
    if k < a.len() {
        return Tried::Stuck(k);
    }
    let m = common(&x[k..], b);
    let to = k + m;
    if m < b.len() {
        return Tried::Stuck(to);
    }
    if joins {
        if to < x.len() {
            if word_byte(x[to]) {
                return Tried::Stuck(to);
            }
            return Tried::Whole(n, to);
        }
        return Tried::Whole(n, to);
    }
    Tried::Whole(n, to)
}

// The larger of two.
pub fn larger(a: usize, b: usize) -> usize
    ensures { result ≡ max a b }
{
    a.max(b)
}

// What is spelled a and then the number n, which is under 100.
fn one_number(x: &[u8], a: &[u8], n: usize) -> Tried
    requires { n < 100 }
    ensures { ReadIs (OneSpelling (a.now ++ decimal n) n) (stops_at true) x.now result }
{
    if n < 10 {
        let w = [(48 + n) as u8];
        return fixed(x, a, &w, true, n);
    }
    let w = [(48 + n / 10) as u8, (48 + n % 10) as u8];
    fixed(x, a, &w, true, n)
}

// What is spelled a and then a number under `count`.
pub fn numbered(x: &[u8], a: &[u8], count: usize) -> Tried
    requires { count ≤ 100 }
    ensures { ReadIs (NumberBehind a.now count) (stops_at true) x.now result }
{
    let mut best = 0;
    for n in 0..count {
        match one_number(x, a, n) {
            Tried::Whole(m, k) => return Tried::Whole(m, k),
            Tried::Stuck(k) => best = larger(best, k),
        }
    }
    Tried::Stuck(best)
}

// How long the name is that x begins with, of its first 15 bytes.
fn name_run(x: &[u8]) -> usize
    ensures { NameRun x.now result }
{
    if x.len() == 0 {
        return 0;
    }
    if text::name_first(x[0]) {
        for i in 1..15 {
            if i == x.len() {
                return i;
            }
            if !text::name_byte(x[i]) {
                return i;
            }
        }
        return 15;
    }
    0
}

// A name: as long as its bytes go.
pub fn name(x: &[u8]) -> Tried
    ensures { ReadIs NameSpelling name_byte x.now result }
{
    let n = name_run(x);
    if n == 0 {
        return Tried::Stuck(0);
    }
    if n < x.len() {
        if text::name_byte(x[n]) {
            return Tried::Stuck(n);
        }
        return Tried::Whole(n, n);
    }
    Tried::Whole(n, n)
}

// A name between a and b, where no name goes on with b.
pub fn tag(x: &[u8], a: &[u8], b: &[u8]) -> Tried
    requires { (1 ≤ length b.now) × (name_byte (get_or b.now 0 0) ≡ false) }
    ensures { ReadIs (TagSpelling a.now b.now) nothing x.now result }
{
    let k = common(x, a);
    if k < a.len() {
        return Tried::Stuck(k);
    }
    let n = name_run(&x[k..]);
    if n == 0 {
        return Tried::Stuck(k);
    }
    let to = k + n;
    let m = common(&x[to..], b);
    let end = to + m;
    if m < b.len() {
        return Tried::Stuck(end);
    }
    Tried::Whole(n, end)
}

// A character as itself.
fn one_character(y: &[u8]) -> Tried
    ensures { ReadIs CharSpelling nothing y.now result }
{
    for j in 0..y.len() {
        let to = j + 1;
        match text::decode(&y[..to]) {
            text::Decoded::Whole(_, n) => return Tried::Whole(n, n),
            text::Decoded::Begun => {}
            text::Decoded::Bad => return Tried::Stuck(j),
        }
    }
    Tried::Stuck(y.len())
}

// How many bytes the character has that begins with the byte.
fn width(a: u8) -> usize
    ensures { result ≡ width_of a }
{
    if a < 128 {
        return 1;
    }
    if a < 224 {
        return 2;
    }
    if a < 240 {
        return 3;
    }
    4
}

// Whether the byte stands for a character behind a \.
fn is_escape(b: u8) -> bool
    ensures { result ≡ escape_byte b }
{
    (b == 34) | ((b == 92) | ((b == 116) | ((b == 110) | (b == 114))))
}

// A character written with a \, with room for so many bytes of it.
fn escape(y: &[u8], room: usize) -> Tried
    requires { (1 ≤ length y.now) × (get_or y.now 0 0 ≡ 92) }
    ensures { ReadIs (PieceSpelling room) nothing y.now result }
{
    if room == 0 {
        return Tried::Stuck(0);
    }
    if y.len() == 1 {
        return Tried::Stuck(1);
    }
    if is_escape(y[1]) {
        return Tried::Whole(1, 2);
    }
    Tried::Stuck(1)
}

// A character of a string as it is written, with room for so many bytes of it.
fn piece(y: &[u8], room: usize) -> Tried
    ensures { ReadIs (PieceSpelling room) nothing y.now result }
{
    if y.len() == 0 {
        return Tried::Stuck(0);
    }
    let a = y[0];
    if a == 92 {
        return escape(y, room);
    }
    if a == 34 {
        return Tried::Stuck(0);
    }
    if a < 32 {
        return Tried::Stuck(0);
    }
    if room < width(a) {
        return Tried::Stuck(0);
    }
    one_character(y)
}

// A string: the first i bytes are read, and have n bytes without their escapes.
pub fn string(x: &[u8]) -> Tried
    ensures { ReadIs StringSpelling nothing x.now result }
{
    if x.len() == 0 {
        return Tried::Stuck(0);
    }
    if x[0] != 34 {
        return Tried::Stuck(0);
    }
    let mut i = 1;
    let mut n = 0;
    // A while: each step goes on by as many bytes as the character was written with, which no range gives.
    while i < x.len() {
        if x[i] == 34 {
            return Tried::Whole(n, i + 1);
        }
        match piece(&x[i..], 255 - n) {
            Tried::Whole(m, k) => {
                n += m;
                i += k;
            }
            Tried::Stuck(k) => return Tried::Stuck(i + k),
        }
    }
    Tried::Stuck(i)
}

// What is spelled w, and has no number. `joins`: no letter, digit or _ may follow it.
pub fn plain(x: &[u8], w: &[u8], joins: bool) -> Tried
    ensures { ReadIs (OneSpelling (w.now ++ []) 0) (stops_at joins) x.now result }
{
    fixed(x, w, b"", joins, 0)
}
