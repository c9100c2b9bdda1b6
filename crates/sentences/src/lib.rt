// Statements of a sheet's programs as text, into lent memory from an offset on: all but an if. A dry run only counts.

#![tactic(auto)]

ghost use Rattle.std.specs.Prelude.{◌≡◌, ◌+◌, ◌≤◌, ◌<◌, length, get_or};
ghost use Rattle.lent.specs.Put.{PutAs};
ghost use Rattle.output.specs.Reach.{farthest};
ghost use Rattle.printed.specs.Programs.{between_statements};
ghost use Rattle.visits.specs.Written.{Written};
ghost use Rattle.visits.specs.Ran.{most_printed};
ghost use Rattle.sentences.specs.Sentences.{assignment_at, QuotedRange, PlainText, preceding_at, item_at};

// Writes that attribute a becomes the operand of that kind.
pub fn put_assignment(kind: u8, a: u8, v: u8, out: &mut [u8], at: usize, write: bool) -> usize
    requires { at + 16 ≤ farthest }
    ensures { PutAs write out.old at (assignment_at kind a v) out.new result }
{
    let x = [1, a];
    let m = printer::put_operand(&x, 0, out, at, write);
    let n = lent::put_bytes(out, m, b" := ", write);
    let y = [kind, v];
    printer::put_operand(&y, 0, out, n, write)
}

// Writes n bytes of the strings from o on in quotes.
pub fn put_string(
    strings: &[u8],
    o: usize,
    n: usize,
    out: &mut [u8],
    at: usize,
    write: bool,
) -> usize
    requires { (n < 256) × (at + most_printed ≤ farthest) }
    ensures { Written most_printed (QuotedRange strings.now o n) (record { write = write; lent = out.old; at = at }) result out.new }
{
    if strings.len() < o {
        return at;
    }
    if strings.len() - o < n {
        return at;
    }
    let e = o + n;
    printer::put_quoted(&strings[o..e], out, at, write)
}

// Writes the statement at i, one other than an if.
pub fn put_plain(
    s: &[u8],
    i: usize,
    tags: &[u8],
    strings: &[u8],
    out: &mut [u8],
    at: usize,
    write: bool,
) -> usize
    requires { (i < length s.now) × (length s.now ≤ 65536) × (1 ≤ get_or s.now i 0) × (get_or s.now i 0 ≡ 10 → ⊥) × (at + most_printed ≤ farthest) }
    ensures { Written most_printed (PlainText s.now tags.now strings.now i) (record { write = write; lent = out.old; at = at }) result out.new }
{
    let k = s[i];
    if k == 4 {
        return lent::put_bytes(out, at, b"reject", write);
    }
    if k == 8 {
        return lent::put_bytes(out, at, b"ECHO", write);
    }
    if k == 9 {
        return lent::put_bytes(out, at, b"ECHO_OFF", write);
    }
    let x = visits::byte(s, i + 1);
    let t = usize::from(x);
    if k == 5 {
        return visits::put_tag(tags, t, false, out, at, write);
    }
    if k == 6 {
        return visits::put_tag(tags, t, true, out, at, write);
    }
    let y = visits::byte(s, i + 2);
    if k == 7 {
        let o = t + 256 * usize::from(y);
        let n = usize::from(visits::byte(s, i + 3));
        return put_string(strings, o, n, out, at, write);
    }
    put_assignment(k - 1, x, y, out, at, write)
}

// Writes what stands between a statement and what precedes it: an item behind a print is one more of its items.
pub fn put_between(preceding: u8, item: bool, out: &mut [u8], at: usize, write: bool) -> usize
    requires { at ≤ farthest }
    ensures { PutAs write out.old at (between_statements (preceding_at preceding) item) out.new result }
{
    if preceding == 0 {
        if item {
            return lent::put_bytes(out, at, b"print ", write);
        }
        return lent::put_bytes(out, at, b"", write);
    }
    if item {
        if preceding == 1 {
            return lent::put_bytes(out, at, b"; print ", write);
        }
        return lent::put_bytes(out, at, b" ", write);
    }
    lent::put_bytes(out, at, b"; ", write)
}

// Whether a statement with that first byte is an item of a print.
pub fn is_item(k: u8) -> bool
    ensures { result ≡ item_at k }
{
    if k < 5 {
        return false;
    }
    k < 8
}
