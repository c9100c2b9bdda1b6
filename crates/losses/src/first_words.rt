// The first words of what was lost: its title where it has one, else its first bytes.
ghost use Rattle.std.specs.Prelude.{◌≤◌, length, IfSome};

use words::say;

// The most bytes that are shown.
const SHOWN: usize = 40;

// How many bytes a title's start tag has, where some bytes begin with one.
fn title_tag(f: &[u8]) -> Option<usize>
    ensures { IfSome result (λ n. n ≤ length f.now) }
{
    let rest = f.strip_prefix(b"<title")?;
    match rest.iter().position(|b| !text::blank(*b)) {
        Some(blanks) if rest[blanks] == b'>' => Some(f.len() - rest.len() + blanks + 1),
        _ => None,
    }
}

// Where the text of the first title starts, or the bytes end.
fn title_in(f: &[u8]) -> usize
    ensures { result ≤ length f.now }
{
    for i in 0..f.len() {
        if let Some(n) = title_tag(&f[i..]) {
            return i + n;
        }
    }
    f.len()
}

// How many bytes come before the next tag, or the end.
fn to_tag(f: &[u8]) -> usize {
    f.iter().position(|b| *b == b'<').unwrap_or(f.len())
}

fn say_start(f: &[u8]) {
    let n = places::uncut(f, SHOWN);
    explain::say_shown(&f[0..n]);
    if n < f.len() {
        say(b" ..");
    }
}

// The title of a record that starts with these bytes, or else their first.
pub(crate) fn say_first_words(f: &[u8]) {
    let from = title_in(f);
    let title = &f[from..];
    let n = files::within(to_tag(title), title);
    if n > 0 {
        say_start(&title[..n]);
        return;
    }
    say_start(f);
}
