// Visits: running the attribution program that a field of a sheet names.

#![tactic(auto)]

ghost use Rattle.std.specs.Prelude.{◌≡◌, ◌&&◌, ◌+◌, ◌*◌, ◌≤◌, ◌<◌, ◌^◌, length, get_or, set};
ghost use Rattle.output.specs.Reach.{farthest};
ghost use Rattle.runs.specs.Visits.{attributes};
ghost use Rattle.layout.specs.LaidOut.{LaidOut};
ghost use Rattle.visits.specs.Evaluated.{ValueIs, JudgedAs, SettledAs, PastIs, SectionEndIs};
ghost use Rattle.visits.specs.Written.{Written, TextOf, RangeOf, TagOf, PrintOf};
ghost use Rattle.visits.specs.Ran.{most_printed, RanAs, statements, lists};
ghost use Rattle.visits.specs.Performed.{PerformedAs};

// A field that names no program.
const NONE: usize = 65535;

// The attributes and echo.
#[derive(Clone, Copy)]
pub struct Env {
    pub values: [u8; Env::ATTRIBUTES],
    pub echo: bool,
}

impl Env {
    // The number of attributes.
    pub const ATTRIBUTES: usize = programs::ATTRIBUTES;
}

// What a condition came to, and the byte after it: no Option, as what follows is read whatever the answer.
#[derive(Clone, Copy)]
pub struct Judged {
    pub yes: bool,
    pub next: usize,
}

// What running came to, where nothing rejects: the byte after what was run, where the next byte of output goes, the attributes and echo.
#[derive(Clone, Copy)]
pub struct Ran {
    pub next: usize,
    pub at: usize,
    pub env: Env,
}

// What a visit's program came to, where it does not reject.
#[derive(Clone, Copy)]
pub struct Performed {
    pub at: usize,
    pub env: Env,
}

// The byte at i, 0 past the end.
pub fn byte(s: &[u8], i: usize) -> u8
    ensures { result ≡ get_or s.now i 0 }
{
    if i < s.len() { s[i] } else { 0 }
}

fn operand(s: &[u8], i: usize, kept: [u8; Env::ATTRIBUTES], values: [u8; Env::ATTRIBUTES]) -> u8
    requires { i + 1 < length s.now }
    ensures { ValueIs s.now i kept values result }
{
    let k = s[i];
    let v = s[i + 1];
    if k == 1 {
        return byte(&values, usize::from(v));
    }
    if k == 2 {
        return byte(&kept, usize::from(v));
    }
    v
}

// Two operands, compared.
fn comparison(
    s: &[u8],
    i: usize,
    kept: [u8; Env::ATTRIBUTES],
    values: [u8; Env::ATTRIBUTES],
) -> Judged
    requires { (i < length s.now) × (get_or s.now i 0 ≡ 0) }
    ensures { JudgedAs s.now i kept values result }
{
    if s.len() - i < 5 {
        return Judged {
            yes: false,
            next: i,
        };
    }
    let x = operand(s, i + 1, kept, values);
    let y = operand(s, i + 3, kept, values);
    Judged {
        yes: x == y,
        next: i + 5,
    }
}

// What the condition at i comes to.
pub fn condition(
    s: &[u8],
    i: usize,
    kept: [u8; Env::ATTRIBUTES],
    values: [u8; Env::ATTRIBUTES],
) -> Judged
    requires { i ≤ length s.now }
    ensures { JudgedAs s.now i kept values result }
{
    if s.len() <= i {
        return Judged {
            yes: false,
            next: i,
        };
    }
    let k = s[i];
    if k == 0 {
        return comparison(s, i, kept, values);
    }
    let c = condition(s, i + 1, kept, values);
    if k == 1 {
        return Judged {
            yes: !c.yes,
            next: c.next,
        };
    }
    let d = condition(s, c.next, kept, values);
    if k == 2 {
        return Judged {
            yes: c.yes & d.yes,
            next: d.next,
        };
    }
    Judged {
        yes: c.yes | d.yes,
        next: d.next,
    }
}

// The attributes with attribute a become v.
fn with_value(env: Env, a: usize, v: u8) -> Env
    requires { a < attributes }
    ensures { (result.values ≡ set env.values a v) × (result.echo ≡ env.echo) }
{
    let mut changed = env;
    changed.values[a] = v;
    changed
}

// The attributes and echo after the statement at i, one other than a branch.
fn settled(s: &[u8], i: usize, kept: [u8; Env::ATTRIBUTES], env: Env) -> Env
    requires { (i < length s.now) × (length s.now ≤ 65536) × (get_or s.now i 0 ≡ 10 → ⊥) }
    ensures { SettledAs s.now i kept env result }
{
    let k = s[i];
    if k == 8 {
        let mut on = env;
        on.echo = true;
        return on;
    }
    if k == 9 {
        let mut off = env;
        off.echo = false;
        return off;
    }
    let values = env.values;
    let a = usize::from(byte(s, i + 1));
    let b = byte(s, i + 2);
    if Env::ATTRIBUTES <= a {
        return env;
    }
    if k == 1 {
        return with_value(env, a, b);
    }
    if k == 2 {
        return with_value(env, a, byte(&values, usize::from(b)));
    }
    if k == 3 {
        return with_value(env, a, byte(&kept, usize::from(b)));
    }
    env
}

// Writes bytes that are whole characters as text.
fn put_text(f: &[u8], out: &mut [u8], at: usize, write: bool) -> usize
    requires { at + 5 * length f.now ≤ farthest }
    ensures { Written (5 * length f.now) (TextOf f.now) (record { write = write; lent = out.old; at = at }) result out.new }
{
    let mut i = 0;
    let mut n = at;
    // A while: each step goes on by the bytes that a character took, which no range gives.
    while i < f.len() {
        let text::Decoded::Whole(c, k) = text::decode(&f[i..]) else {
            return n;
        };
        n = output::put_char(out, n, c, write);
        i += k;
    }
    n
}

// Writes n bytes of the strings from o on as text.
fn put_range(strings: &[u8], o: usize, n: usize, out: &mut [u8], at: usize, write: bool) -> usize
    requires { (n < 256) × (at + most_printed ≤ farthest) }
    ensures { Written most_printed (RangeOf strings.now o n) (record { write = write; lent = out.old; at = at }) result out.new }
{
    if strings.len() < o {
        return at;
    }
    if strings.len() - o < n {
        return at;
    }
    let e = o + n;
    put_text(&strings[o..e], out, at, write)
}

// Writes the start tag or the end tag of tag t.
pub fn put_tag(tags: &[u8], t: usize, ending: bool, out: &mut [u8], at: usize, write: bool) -> usize
    requires { (t < 256) × (at + most_printed ≤ farthest) }
    ensures { Written most_printed (TagOf tags.now t ending) (record { write = write; lent = out.old; at = at }) result out.new }
{
    let from = 16 * t + 1;
    if tags.len() < from {
        return at;
    }
    let n = usize::from(tags[16 * t]);
    if tags.len() - from < n {
        return at;
    }
    let to = from + n;
    if ending {
        return output::put_end(out, at, &tags[from..to], write);
    }
    output::put_start(out, at, &tags[from..to], write)
}

// Writes what the statement at i prints, one other than a branch.
fn print(
    s: &[u8],
    i: usize,
    tags: &[u8],
    strings: &[u8],
    out: &mut [u8],
    at: usize,
    write: bool,
) -> usize
    requires { (i < length s.now) × (length s.now ≤ 65536) × (get_or s.now i 0 ≡ 10 → ⊥) × (at + most_printed ≤ farthest) }
    ensures { Written most_printed (PrintOf s.now tags.now strings.now i) (record { write = write; lent = out.old; at = at }) result out.new }
{
    let k = s[i];
    let t = usize::from(byte(s, i + 1));
    if k == 5 {
        return put_tag(tags, t, false, out, at, write);
    }
    if k == 6 {
        return put_tag(tags, t, true, out, at, write);
    }
    if k == 7 {
        let o = t + 256 * usize::from(byte(s, i + 2));
        let n = usize::from(byte(s, i + 3));
        return put_range(strings, o, n, out, at, write);
    }
    at
}

// The end of w bytes from i on, no further than the section goes.
fn end_of(s: &[u8], i: usize, w: usize) -> usize
    requires { (i < length s.now) × (1 ≤ w) }
    ensures { SectionEndIs s.now i w result }
{
    i + w.min(s.len() - i)
}

// The byte after the statement at i, one other than a branch.
pub fn past(s: &[u8], i: usize) -> usize
    requires { (i < length s.now) × (get_or s.now i 0 ≡ 10 → ⊥) }
    ensures { PastIs s.now i result }
{
    let k = s[i];
    if k < 4 {
        return end_of(s, i, 3);
    }
    if k == 7 {
        return end_of(s, i, 4);
    }
    if k == 5 {
        return end_of(s, i, 2);
    }
    if k == 6 {
        return end_of(s, i, 2);
    }
    end_of(s, i, 1)
}

// The statement at i, one other than a branch.
fn plain(
    s: &[u8],
    tags: &[u8],
    strings: &[u8],
    i: usize,
    kept: [u8; Env::ATTRIBUTES],
    env: Env,
    live: bool,
    out: &mut [u8],
    at: usize,
    write: bool,
) -> Option<Ran>
    requires { (i < length s.now) × (length s.now ≤ 65536) × (get_or s.now i 0 ≡ 10 → ⊥) × (at + most_printed ≤ farthest) }
    ensures { RanAs statements (record { section = s.now; tags = tags.now; strings = strings.now }) i kept env live (record { write = write; lent = out.old; at = at }) result out.new }
{
    let next = past(s, i);
    if !live {
        return Some(Ran {
            next: next,
            at: at,
            env: env,
        });
    }
    if s[i] == 4 {
        return None;
    }
    Some(Ran {
        next: next,
        at: print(s, i, tags, strings, out, at, write),
        env: settled(s, i, kept, env),
    })
}

// The statement at i. Both lists of a branch are run in turn, one of them passed over.
#[cycle(list_statement)]
fn statement(
    s: &[u8],
    tags: &[u8],
    strings: &[u8],
    i: usize,
    kept: [u8; Env::ATTRIBUTES],
    env: Env,
    live: bool,
    out: &mut [u8],
    at: usize,
    write: bool,
) -> Option<Ran>
    requires { (i < length s.now) × (length s.now ≤ 65536) × (at + most_printed * length s.now ≤ farthest + most_printed * i) }
    ensures { RanAs statements (record { section = s.now; tags = tags.now; strings = strings.now }) i kept env live (record { write = write; lent = out.old; at = at }) result out.new }
{
    if s[i] != 10 {
        return plain(s, tags, strings, i, kept, env, live, out, at, write);
    }
    let values = env.values;
    let c = condition(s, i + 1, kept, values);
    let first = live & c.yes;
    let l = list(s, tags, strings, c.next, kept, env, first, out, at, write)?;
    let after = l.env;
    let second = live & !c.yes;
    list(
        s, tags, strings, l.next, kept, after, second, out, l.at, write,
    )
}

// The statements from i on, to the 0 that ends them.
#[cycle(list_statement)]
fn list(
    s: &[u8],
    tags: &[u8],
    strings: &[u8],
    i: usize,
    kept: [u8; Env::ATTRIBUTES],
    env: Env,
    live: bool,
    out: &mut [u8],
    at: usize,
    write: bool,
) -> Option<Ran>
    requires { (i ≤ length s.now) × (length s.now ≤ 65536) × (at + most_printed * length s.now ≤ farthest + most_printed * i) }
    ensures { RanAs lists (record { section = s.now; tags = tags.now; strings = strings.now }) i kept env live (record { write = write; lent = out.old; at = at }) result out.new }
{
    if s.len() <= i {
        return None;
    }
    if s[i] == 0 {
        return Some(Ran {
            next: i + 1,
            at: at,
            env: env,
        });
    }
    let l = statement(s, tags, strings, i, kept, env, live, out, at, write)?;
    let after = l.env;
    list(
        s, tags, strings, l.next, kept, after, live, out, l.at, write,
    )
}

// Runs the program that starts at an offset of the section.
fn perform_at(
    s: &[u8],
    l: layout::Layout,
    field: usize,
    kept: [u8; Env::ATTRIBUTES],
    env: Env,
    out: &mut [u8],
    at: usize,
    write: bool,
) -> Option<Performed>
    requires laid_out { LaidOut s.now l }
    requires at_bound { (at ≤ 2 ^ 60) × (field ≤ l.programs) × (field ≡ 65535 → ⊥) }
    ensures { PerformedAs s.now field kept env (record { write = write; lent = out.old; at = at }) result out.new }
{
    let a = l.programs_at;
    let b = a + l.programs;
    let c = l.strings_at;
    let d = c + l.strings;
    let section = &s[a..b];
    let strings = &s[c..d];
    let r = list(section, s, strings, field, kept, env, true, out, at, write)?;
    let after = r.env;
    Some(Performed {
        at: r.at,
        env: after,
    })
}

// Runs the program that a field of the sheet s names, or none.
pub fn perform(
    s: &[u8],
    l: layout::Layout,
    field: usize,
    kept: [u8; Env::ATTRIBUTES],
    env: Env,
    out: &mut [u8],
    at: usize,
    write: bool,
) -> Option<Performed>
    requires laid_out { LaidOut s.now l }
    requires at_bound { at ≤ 2 ^ 60 }
    ensures { PerformedAs s.now field kept env (record { write = write; lent = out.old; at = at }) result out.new }
{
    if field == NONE {
        return Some(Performed { at: at, env: env });
    }
    if l.programs < field {
        return None;
    }
    perform_at(s, l, field, kept, env, out, at, write)
}
