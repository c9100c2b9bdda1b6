// Conditions of a sheet's programs as text, into lent memory from an offset on. A dry run only counts.

#![tactic(auto)]

ghost use Rattle.std.specs.Prelude.{◌≡◌, ◌+◌, ◌*◌, ◌-◌, ◌≤◌, ◌<◌, length, get_or};
ghost use Rattle.lent.specs.Put.{PutAs};
ghost use Rattle.output.specs.Reach.{farthest};
ghost use Rattle.printed.specs.Conditions.{condition_text};
ghost use Rattle.clauses.specs.Clauses.{binds_at, word_between, condition_text_in, sign_where, most_of_a_byte, ClausePut};

// The byte after what was read, and where the next byte of text goes.
#[derive(Clone, Copy)]
pub struct Put {
    pub next: usize,
    pub at: usize,
}

// How tightly a condition with that first byte binds.
fn binds_of(k: u8) -> u8
    ensures { (result ≡ binds_at k) × (result ≤ 2) }
{
    if k == 3 {
        return 0;
    }
    if k == 2 {
        return 1;
    }
    2
}

// Writes a sign, or nothing.
pub fn put_where(wanted: bool, sign: u8, out: &mut [u8], at: usize, write: bool) -> usize
    requires { at ≤ farthest + 1 }
    ensures { PutAs write out.old at (sign_where wanted sign) out.new result }
{
    if wanted {
        let w = [sign];
        return lent::put_bytes(out, at, &w, write);
    }
    lent::put_bytes(out, at, b"", write)
}

// Writes the word between the parts of a condition with that first byte.
fn put_word(k: u8, out: &mut [u8], at: usize, write: bool) -> usize
    requires { at ≤ farthest + 1 }
    ensures { PutAs write out.old at (word_between k) out.new result }
{
    if k == 2 {
        return lent::put_bytes(out, at, b" and ", write);
    }
    lent::put_bytes(out, at, b" or ", write)
}

// Writes the comparison at i. One that is cut off ends with the section.
fn put_comparison(s: &[u8], i: usize, out: &mut [u8], at: usize, write: bool) -> Put
    requires { (i < length s.now) × (get_or s.now i 0 ≡ 0) × (at + most_of_a_byte * (length s.now - i) ≤ farthest + 1) }
    ensures { ClausePut 2 condition_text s.now i (record { write = write; lent = out.old; at = at }) result out.new }
{
    if s.len() - i < 5 {
        return Put {
            next: s.len(),
            at: at,
        };
    }
    let x = printer::put_operand(s, i + 1, out, at, write);
    let m = lent::put_bytes(out, x, b" = ", write);
    let y = printer::put_operand(s, i + 3, out, m, write);
    Put { next: i + 5, at: y }
}

// Writes the condition at i with no parentheses around it. What stands behind its word asks for more binding than it has itself.
#[cycle(put_bare_put_condition)]
fn put_bare(s: &[u8], i: usize, out: &mut [u8], at: usize, write: bool) -> Put
    requires { (i < length s.now) × (at + most_of_a_byte * (length s.now - i) ≤ farthest + 1) }
    ensures { ClausePut 2 condition_text s.now i (record { write = write; lent = out.old; at = at }) result out.new }
{
    let k = s[i];
    if k == 0 {
        return put_comparison(s, i, out, at, write);
    }
    let b = binds_of(k);
    if k == 1 {
        let n = lent::put_bytes(out, at, b"not ", write);
        return put_condition(s, i + 1, b + 1, out, n, write);
    }
    let c = put_condition(s, i + 1, b, out, at, write);
    let n = put_word(k, out, c.at, write);
    put_condition(s, c.next, b + 1, out, n, write)
}

// Writes the condition at i, in parentheses where it binds less than its place asks.
#[cycle(put_bare_put_condition)]
pub fn put_condition(s: &[u8], i: usize, asked: u8, out: &mut [u8], at: usize, write: bool) -> Put
    requires { (i ≤ length s.now) × (at + most_of_a_byte * (length s.now - i) ≤ farthest) }
    ensures { ClausePut 0 (condition_text_in asked) s.now i (record { write = write; lent = out.old; at = at }) result out.new }
{
    if s.len() <= i {
        return Put { next: i, at: at };
    }
    let around = binds_of(s[i]) < asked;
    let from = put_where(around, 40, out, at, write);
    let c = put_bare(s, i, out, from, write);
    let to = put_where(around, 41, out, c.at, write);
    Put {
        next: c.next,
        at: to,
    }
}
