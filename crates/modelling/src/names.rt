// The names in a text of declarations that is right, in the order in which they stand. Words between signs and white space are names, but for ELEMENT, EMPTY and
// PCDATA, which stand where no name does.
ghost use Rattle.std.specs.Prelude.{◌≡◌, ◌-◌, ◌≤◌, IfSome, length};
ghost use Rattle.std.specs.Iterator.{at_most};

use lookups::same_name;
use words::tell;

// Where a word stands: behind <, where it is ELEMENT; where it is the name of the element that is declared; where it is EMPTY; in parentheses; behind #, where it
// is PCDATA.
#[derive(Clone, Copy)]
pub(crate) enum Spot {
    Keyword,
    Own,
    Content,
    Model,
    Hash,
}

// A word: its first byte, and the byte behind it.
#[derive(Clone, Copy)]
pub(crate) struct Word {
    pub from: usize,
    pub to: usize,
    pub spot: Spot,
}

// Where a sign leads.
fn turned(spot: Spot, b: u8) -> Spot {
    match b {
        b'<' => Spot::Keyword,
        b'(' => Spot::Model,
        b'#' => Spot::Hash,
        _ => spot,
    }
}

// Where a word leads.
fn behind(spot: Spot) -> Spot {
    match spot {
        Spot::Keyword => Spot::Own,
        Spot::Own => Spot::Content,
        Spot::Content => Spot::Content,
        Spot::Model => Spot::Model,
        Spot::Hash => Spot::Model,
    }
}

// Whether it is the name of the element that is declared.
pub(crate) fn is_own(w: Word) -> bool {
    matches!(w.spot, Spot::Own)
}

fn is_name(w: Word) -> bool {
    matches!(w.spot, Spot::Own | Spot::Model)
}

// Where a word ends of which all before a byte was seen.
fn word_end(text: &[u8], at: usize) -> usize
    requires { at ≤ length text.now }
    ensures lower_bound { at ≤ result }
    ensures upper_bound { result ≤ length text.now }
{
    match text[at..].iter().position(|b| !text::name_byte(*b)) {
        Some(more) => at + more,
        None => text.len(),
    }
}

// The first word from a byte on; none, which has no bytes, at the end.
fn next_word(text: &[u8], at: usize, from: Spot) -> Word
    requires { at ≤ length text.now }
    ensures at_le_from { at ≤ result.from }
    ensures from_le_to { result.from ≤ result.to }
    ensures to_in_bounds { result.to ≤ length text.now }
{
    let mut spot = from;
    for i in at..text.len() {
        if text::name_byte(text[i]) {
            return Word {
                from: i,
                to: word_end(text, i + 1),
                spot: spot,
            };
        }
        spot = turned(spot, text[i]);
    }
    Word {
        from: text.len(),
        to: text.len(),
        spot: spot,
    }
}

// The first name from a byte on; none, which has no bytes, at the end.
fn next_name(text: &[u8], at: usize, from: Spot) -> Word
    requires { at ≤ length text.now }
    ensures at_le_from { at ≤ result.from }
    ensures from_le_to { result.from ≤ result.to }
    ensures to_in_bounds { result.to ≤ length text.now }
{
    let mut w = next_word(text, at, from);
    // A while: each step goes on behind the word that it found, which no range gives.
    while w.from < w.to {
        if is_name(w) {
            return w;
        }
        let spot = w.spot;
        w = next_word(text, w.to, behind(spot));
    }
    w
}

// The names from a place on, in the order in which they stand.
#[derive(Drop)]
pub(crate) struct Names<'a> {
    text: &'a [u8],
    at: usize,
    spot: Spot,
}

impl<'a> Iterator for Names<'a> {
    type Item = Word;

    ghost can_next = { λ s. s.at ≤ length s.text.now };

    // Each name stands behind the one before it, and the place only goes on.
    ghost next_gives = { λ old r new. (new.text.now ≡ old.text.now) × (old.at ≤ new.at) × IfSome r (λ w. (old.at ≤ w.from) × (w.from ≤ w.to) × (w.to ≤ length old.text.now) × (new.at ≡ w.to)) };

    ghost remaining = { λ s. at_most (length s.text.now - s.at) };

    fn next(&mut self) -> Option<Word> {
        let w = next_name(self.text, self.at, self.spot);
        if w.from == w.to {
            return None;
        }
        self.at = w.to;
        self.spot = behind(w.spot);
        Some(w)
    }
}

// All names.
pub(crate) fn all_names(text: &[u8]) -> Names<'_>
    ensures at_start { result.at ≡ 0 }
    ensures same_text { result.text.now ≡ text.now }
{
    Names {
        text: text,
        at: 0,
        spot: Spot::Keyword,
    }
}

// The names behind another.
pub(crate) fn names_behind(text: &[u8], w: Word) -> Names<'_>
    ensures at_end { result.at ≡ w.to }
    ensures same_text { result.text.now ≡ text.now }
{
    Names {
        text: text,
        at: w.to,
        spot: behind(w.spot),
    }
}

// No name: it has no bytes, and stands at the end.
pub(crate) fn no_name(text: &[u8]) -> Word
    ensures from_le_to { result.from ≤ result.to }
    ensures to_in_bounds { result.to ≤ length text.now }
{
    Word {
        from: text.len(),
        to: text.len(),
        spot: Spot::Content,
    }
}

// Whether two names are spelled alike.
pub(crate) fn is_same(text: &[u8], a: Word, b: Word) -> bool
    requires from_le_to { a.from ≤ a.to }
    requires to_in_bounds { a.to ≤ length text.now }
    requires from_le_to_2 { b.from ≤ b.to }
    requires to_in_bounds_2 { b.to ≤ length text.now }
{
    let first = a.from;
    let end = a.to;
    let other_first = b.from;
    let other_end = b.to;
    same_name(&text[first..end], &text[other_first..other_end])
}

// Of some names of a text, the first that is spelled like another; of elements that are declared alone, or of all. It stands where these names do, and
// none stands before the place from which they are read.
fn alike(text: &[u8], names: Names<'_>, w: Word, own: bool) -> Option<Word>
    requires at_in_bounds { names.at ≤ length text.now }
    requires same_text { names.text.now ≡ text.now }
    requires from_le_to { w.from ≤ w.to }
    requires to_in_bounds { w.to ≤ length text.now }
    ensures found { IfSome result (λ e. (names.entry.at ≤ e.from) × (e.from ≤ e.to) × (e.to ≤ length text.now)) }
{
    for e in names {
        if (is_own(e) | !own) & is_same(text, e, w) {
            return Some(e);
        }
    }
    None
}

// Whether a name was not mentioned before.
pub(crate) fn is_new(text: &[u8], w: Word) -> bool
    requires from_le_to { w.from ≤ w.to }
    requires to_in_bounds { w.to ≤ length text.now }
{
    match alike(text, all_names(text), w, false) {
        Some(e) => e.from == w.from,
        None => false,
    }
}

// Whether an element with this name is declared.
pub(crate) fn is_declared(text: &[u8], w: Word) -> bool
    requires from_le_to { w.from ≤ w.to }
    requires to_in_bounds { w.to ≤ length text.now }
{
    alike(text, all_names(text), w, true).is_some()
}

// Whether this is the first of several declarations of an element.
pub(crate) fn begins_several(text: &[u8], w: Word) -> bool
    requires from_le_to { w.from ≤ w.to }
    requires to_in_bounds { w.to ≤ length text.now }
{
    let next = alike(text, names_behind(text, w), w, true);
    match alike(text, all_names(text), w, true) {
        Some(first) => (first.from == w.from) & next.is_some(),
        None => false,
    }
}

// The name of the element that is declared behind q others; none, which has no bytes, where there are not so many.
pub(crate) fn declaration(text: &[u8], q: usize) -> Word
    ensures from_le_to { result.from ≤ result.to }
    ensures to_in_bounds { result.to ≤ length text.now }
{
    let mut left = q;
    for w in all_names(text) {
        if is_own(w) {
            if left == 0 {
                return w;
            }
            left -= 1;
        }
    }
    no_name(text)
}

// The name of an element as it is written.
pub(crate) fn tell_name(fd: i32, text: &[u8], w: Word)
    requires from_le_to { w.from ≤ w.to }
    requires to_in_bounds { w.to ≤ length text.now }
{
    let first = w.from;
    let end = w.to;
    tell(fd, &text[first..end]);
}
