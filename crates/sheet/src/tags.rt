// The tags of a sheet: number 3.
ghost use Rattle.std.specs.Prelude.{◌≡◌, List, ℕ, ◌<◌, ◌+◌, ◌≤◌, length, replicate};
ghost use Rattle.text.specs.Names.{All, name_byte};
ghost use Rattle.tells.specs.Tells.{Tells};
ghost use Rattle.layout.specs.LaidOut.{LaidOut};
ghost use Rattle.sheet.specs.Tags.{Tags};
ghost use Rattle.sheet.specs.TagTests.{TagSpelled, New};

use layout::Layout;

// The name after its first byte.
fn all_name(f: &[u8]) -> bool
    ensures { Tells (All name_byte f.now) result }
{
    f.iter().all(|b| text::name_byte(*b))
}

// The fill after the name.
fn all_zero(f: &[u8]) -> bool
    ensures { Tells (f.now ≡ replicate (length f.now) 0) result }
{
    f.iter().all(|b| *b == 0)
}

// Whether 16 bytes are a tag's record.
fn is_tag(b: &[u8]) -> bool
    requires { length b.now ≡ 16 }
    ensures { Tells ((n : List ℕ) × TagSpelled b.now n) result }
{
    let n = layout::byte_at(b, 0);
    if n < 1 {
        return false;
    }
    if 15 < n {
        return false;
    }
    let end = n + 1;
    text::name_first(b[1]) & (all_name(&b[2..end]) & all_zero(&b[end..]))
}

// Whether no tag before t has its bytes. The first of them is the name's length, so lengths are compared first.
fn is_new(s: &[u8], l: Layout, t: usize) -> bool
    requires laid_out { LaidOut s.now l }
    requires t_lt_tags { t < l.tags }
    ensures { Tells (New s.now t) result }
{
    let at = l.tags_at + 16 * t;
    let end = at + 16;
    for u in 0..t {
        let from = l.tags_at + 16 * u;
        let to = from + 16;
        if s[from..to] == s[at..end] {
            return false;
        }
    }
    true
}

// Whether each tag has a name, and all are different.
pub fn tags_fit(s: &[u8], l: Layout) -> bool
    requires { LaidOut s.now l }
    ensures { Tells (Tags s.now) result }
{
    for t in 0..l.tags {
        let at = l.tags_at + 16 * t;
        let end = at + 16;
        if !is_tag(&s[at..end]) {
            return false;
        }
        if !is_new(s, l, t) {
            return false;
        }
    }
    true
}
