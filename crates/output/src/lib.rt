// Output text into lent memory, from an offset on: characters escaped, start tags and end tags. A dry run only counts.

#![tactic(auto)]

ghost use Rattle.std.specs.Prelude.{[], ◌∷◌, ◌++◌, ◌≤◌, length};
ghost use Rattle.lent.specs.Put.{PutAs};
ghost use Rattle.text.specs.Chars.{Char};
ghost use Rattle.output.specs.Escape.{escaped, start_tag, end_tag};
ghost use Rattle.output.specs.Reach.{farthest};

// Writes a character as text.
pub fn put_char(out: &mut [u8], at: usize, c: u32, write: bool) -> usize
    requires at_le_farthest { at ≤ farthest }
    requires char { Char c }
    ensures { PutAs write out.old at (escaped c) out.new result }
{
    if c == 38 {
        return lent::put_bytes(out, at, b"&amp;", write);
    }
    if c == 60 {
        return lent::put_bytes(out, at, b"&lt;", write);
    }
    if c == 62 {
        return lent::put_bytes(out, at, b"&gt;", write);
    }
    if c == 13 {
        return lent::put_bytes(out, at, b"&#13;", write);
    }
    if c < 128 {
        let w = [c as u8];
        return lent::put_bytes(out, at, &w, write);
    }
    if c < 2048 {
        let w = [(192 + c / 64) as u8, (128 + c % 64) as u8];
        return lent::put_bytes(out, at, &w, write);
    }
    let d = (128 + c / 64 % 64) as u8;
    let e = (128 + c % 64) as u8;
    if c < 65536 {
        let w = [(224 + c / 4096) as u8, d, e];
        return lent::put_bytes(out, at, &w, write);
    }
    let w = [(240 + c / 262144) as u8, (128 + c / 4096 % 64) as u8, d, e];
    lent::put_bytes(out, at, &w, write)
}

// Writes a tag: what opens it, its name, and >.
fn put_tag(out: &mut [u8], at: usize, head: &[u8], name: &[u8], write: bool) -> usize
    requires { (at ≤ farthest) × (length head.now ≤ 2) × (length name.now ≤ farthest) }
    ensures { PutAs write out.old at (head.now ++ (name.now ++ (62 ∷ []))) out.new result }
{
    let from = lent::put_bytes(out, at, head, write);
    let to = lent::put_bytes(out, from, name, write);
    lent::put_bytes(out, to, b">", write)
}

// Writes a start tag.
pub fn put_start(out: &mut [u8], at: usize, name: &[u8], write: bool) -> usize
    requires { (at ≤ farthest) × (length name.now ≤ farthest) }
    ensures { PutAs write out.old at (start_tag name.now) out.new result }
{
    put_tag(out, at, b"<", name, write)
}

// Writes an end tag.
pub fn put_end(out: &mut [u8], at: usize, name: &[u8], write: bool) -> usize
    requires { (at ≤ farthest) × (length name.now ≤ farthest) }
    ensures { PutAs write out.old at (end_tag name.now) out.new result }
{
    put_tag(out, at, b"</", name, write)
}
