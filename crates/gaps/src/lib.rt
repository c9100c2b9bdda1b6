// What stands between tokens, up to the next one or to the text's end.

#![tactic(auto)]

ghost use Rattle.std.specs.Prelude.{◌≡◌, ◌≤◌, ◌<◌, length, get_or};
ghost use Rattle.notation.specs.Gaps.{in_comment};
ghost use Rattle.gaps.specs.Skipped.{SkippedIs, CommentRun};

#[derive(Clone, Copy)]
pub enum Skipped {
    // A gap, and then a byte that is in none: where it stands.
    To(usize),
    // The text's end, perhaps in a comment.
    End,
    // A comment with a byte that it may not hold: where it stands.
    Bad(usize),
}

// Whether a comment may hold the byte.
fn in_comment(b: u8) -> bool
    ensures { result ≡ in_comment b }
{
    ((1 <= b) & (b <= 255)) & !(b == 10)
}

// Where the bytes of a comment end that goes on at `from`.
fn comment_end(x: &[u8], from: usize) -> usize
    requires { from ≤ length x.now }
    ensures { CommentRun x.now from result }
{
    match x[from..].iter().position(|b| !in_comment(*b)) {
        Some(n) => from + n,
        None => x.len(),
    }
}

// What stands in front of the next token.
pub fn skip(x: &[u8]) -> Skipped
    ensures { SkippedIs x.now result }
{
    let mut i = 0;
    // A while: a step goes over a whole comment, as far as that was read, which no range gives.
    while i < x.len() {
        let b = x[i];
        if text::blank(b) {
            i += 1;
        } else {
            if b != 35 {
                return Skipped::To(i);
            }
            let from = i + 1;
            let to = comment_end(x, from);
            if to == x.len() {
                return Skipped::End;
            }
            if x[to] != 10 {
                return Skipped::Bad(to);
            }
            i = to + 1;
        }
    }
    Skipped::End
}
