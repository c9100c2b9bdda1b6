// The smallest parts of a printed text, into lent memory from an offset on: numbers, strings, operands. A dry run only counts.

#![tactic(auto)]

ghost use Rattle.std.specs.Prelude.{[], ◌∷◌, ◌++◌, ◌+◌, ◌*◌, ◌≤◌, ◌<◌, length, get_or};
ghost use Rattle.lent.specs.Put.{PutAs};
ghost use Rattle.output.specs.Reach.{farthest};
ghost use Rattle.notation.specs.Tokens.{decimal};
ghost use Rattle.printed.specs.Programs.{in_string, all_in_string, quoted};
ghost use Rattle.printer.specs.Operands.{operand_text_at};

// Writes a number with no leading zero.
pub fn put_decimal(out: &mut [u8], at: usize, n: u8, write: bool) -> usize
    requires { at ≤ farthest }
    ensures { PutAs write out.old at (decimal n) out.new result }
{
    if n < 10 {
        let w = [48 + n];
        return lent::put_bytes(out, at, &w, write);
    }
    let w = [48 + n / 10, 48 + n % 10];
    lent::put_bytes(out, at, &w, write)
}

// Writes a byte of a string, escaped where it is one of the five.
fn put_in_string(out: &mut [u8], at: usize, b: u8, write: bool) -> usize
    requires { at ≤ farthest }
    ensures { PutAs write out.old at (in_string b) out.new result }
{
    if b == 34 {
        return lent::put_bytes(out, at, b"\\\"", write);
    }
    if b == 92 {
        return lent::put_bytes(out, at, b"\\\\", write);
    }
    if b == 9 {
        return lent::put_bytes(out, at, b"\\t", write);
    }
    if b == 10 {
        return lent::put_bytes(out, at, b"\\n", write);
    }
    if b == 13 {
        return lent::put_bytes(out, at, b"\\r", write);
    }
    let w = [b];
    lent::put_bytes(out, at, &w, write)
}

// Writes a string without its quotes.
fn put_characters(f: &[u8], out: &mut [u8], at: usize, write: bool) -> usize
    requires { at + 2 * length f.now ≤ farthest }
    ensures { PutAs write out.old at (all_in_string f.now) out.new result }
{
    let mut n = at;
    for b in f {
        n = put_in_string(out, n, *b, write);
    }
    n
}

// Writes a string in quotes.
pub fn put_quoted(f: &[u8], out: &mut [u8], at: usize, write: bool) -> usize
    requires { at + 2 * length f.now + 2 ≤ farthest }
    ensures { PutAs write out.old at (quoted f.now) out.new result }
{
    let from = lent::put_bytes(out, at, b"\"", write);
    let to = put_characters(f, out, from, write);
    lent::put_bytes(out, to, b"\"", write)
}

// Writes the operand at i: a value, an attribute, or an attribute after the first visit.
pub fn put_operand(s: &[u8], i: usize, out: &mut [u8], at: usize, write: bool) -> usize
    requires { (i + 1 < length s.now) × (at + 4 ≤ farthest) }
    ensures { PutAs write out.old at (operand_text_at (get_or s.now i 0) (get_or s.now (i + 1) 0)) out.new result }
{
    let k = s[i];
    let v = s[i + 1];
    if k == 0 {
        return put_decimal(out, at, v, write);
    }
    if k == 1 {
        let from = lent::put_bytes(out, at, b"$.a", write);
        return put_decimal(out, from, v, write);
    }
    let from = lent::put_bytes(out, at, b"$[.a", write);
    put_decimal(out, from, v, write)
}
