// The strings that a program of a sheet prints, each kept once in a store of lent memory.

#![tactic(auto)]

ghost use Rattle.std.specs.Prelude.{◌≡◌, ◌+◌, ◌≤◌, ◌<◌, length, get_or};
ghost use Rattle.stores.specs.Rows.{HasRows};
ghost use Rattle.gleans.specs.Gleans.{KeptAs, StringIs, StatementStrings, ListStrings};

// Keeps n bytes of the strings from o on. Where all strings so far have room, the answer here and below is how many they are.
fn keep_string(
    strings: &[u8],
    o: usize,
    n: usize,
    bytes: &mut [u8],
    ends: &mut [usize],
    count: usize,
) -> Option<usize>
    requires { (o < 65536) × (n < 256) × HasRows bytes.old ends.old count }
    ensures { KeptAs (StringIs strings.now o n) bytes.old ends.old count result bytes.new ends.new }
{
    let e = o + n;
    if strings.len() < e {
        return Some(count);
    }
    let filed = stores::keep(bytes, ends, count, &strings[o..e]);
    match filed {
        stores::Filed::There(_, _) => Some(count),
        stores::Filed::Added(_, _) => Some(count + 1),
        stores::Filed::Full => None,
    }
}

// Keeps the string that the statement at i prints, one other than an if.
fn keep_plain(
    s: &[u8],
    i: usize,
    strings: &[u8],
    bytes: &mut [u8],
    ends: &mut [usize],
    count: usize,
) -> Option<usize>
    requires { (i < length s.now) × (length s.now ≤ 65536) × (get_or s.now i 0 ≡ 10 → ⊥) × HasRows bytes.old ends.old count }
    ensures { KeptAs (StatementStrings s.now strings.now i) bytes.old ends.old count result bytes.new ends.new }
{
    if s[i] != 7 {
        return Some(count);
    }
    if s.len() - i < 4 {
        return Some(count);
    }
    let o = layout::word_at(s, i + 1);
    let n = layout::byte_at(s, i + 3);
    keep_string(strings, o, n, bytes, ends, count)
}

// Keeps the strings that the statement at i prints.
#[cycle(keep_list_keep_statement)]
fn keep_statement(
    s: &[u8],
    i: usize,
    strings: &[u8],
    bytes: &mut [u8],
    ends: &mut [usize],
    count: usize,
) -> Option<usize>
    requires { (i < length s.now) × (length s.now ≤ 65536) × HasRows bytes.old ends.old count }
    ensures { KeptAs (StatementStrings s.now strings.now i) bytes.old ends.old count result bytes.new ends.new }
{
    if s[i] != 10 {
        return keep_plain(s, i, strings, bytes, ends, count);
    }
    let c = glances::past_condition(s, i + 1);
    let l = keep_list(s, c, strings, bytes, ends, count)?;
    let m = glances::past_list(s, c);
    keep_list(s, m, strings, bytes, ends, l)
}

// Keeps the strings that the statements from i on print, to the 0 that ends them.
#[cycle(keep_list_keep_statement)]
pub fn keep_list(
    s: &[u8],
    i: usize,
    strings: &[u8],
    bytes: &mut [u8],
    ends: &mut [usize],
    count: usize,
) -> Option<usize>
    requires { (i ≤ length s.now) × (length s.now ≤ 65536) × HasRows bytes.old ends.old count }
    ensures { KeptAs (ListStrings s.now strings.now i) bytes.old ends.old count result bytes.new ends.new }
{
    if s.len() <= i {
        return Some(count);
    }
    if s[i] == 0 {
        return Some(count);
    }
    // Not `?`: handed on as it is, the call at the end is compiled to a loop, and a long list takes no more stack than a short one.
    let first = keep_statement(s, i, strings, bytes, ends, count);
    let Some(t) = first else {
        return first;
    };
    let n = glances::past_statement(s, i);
    keep_list(s, n, strings, bytes, ends, t)
}
