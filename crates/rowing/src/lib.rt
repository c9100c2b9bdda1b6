// The row of bytes that a token has the stores keep: a tag's name, a string without its escapes, or the program that a } ends.

#![tactic(auto)]

ghost use Rattle.std.specs.Prelude.{◌≤◌};
ghost use Rattle.inks.specs.Held.{Trim};
ghost use Rattle.rowing.specs.Rows.{PartIs, RowOf};

// A part of the token's bytes.
fn part_into(token: &[u8], from: usize, number: usize, out: &mut [u8]) -> usize
    requires { from ≤ 2 }
    ensures { PartIs token.now from number out.old out.new result }
{
    if token.len() < number {
        return 0;
    }
    if out.len() < number {
        return 0;
    }
    let to = from + number;
    if token.len() < to {
        return 0;
    }
    lent::put_bytes(out, 0, &token[from..to], true)
}

// The row of a token of a kind; of other kinds none.
pub fn row_of(token: &[u8], kind: usize, number: usize, ink: inks::Ink, out: &mut [u8]) -> usize
    requires { Trim ink }
    ensures { RowOf token.now kind number ink out.old out.new result }
{
    if kind == 9 {
        return unquoting::unquote(token, out);
    }
    if kind == 28 {
        let page = ink.sealed();
        let bytes = page.bytes;
        let n = page.len;
        return part_into(&bytes, 0, n, out);
    }
    if kind == 5 {
        return part_into(token, 0, number, out);
    }
    if kind == 7 {
        return part_into(token, 2, number, out);
    }
    part_into(token, 1, number, out)
}
