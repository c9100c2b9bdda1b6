// Programs of a sheet as text, into lent memory from an offset on. A dry run only counts.

#![tactic(auto)]

ghost use Rattle.std.specs.Prelude.{◌≡◌, ◌+◌, ◌*◌, ◌≤◌, ◌<◌, length, get_or};
ghost use Rattle.lent.specs.Put.{PutAs};
ghost use Rattle.output.specs.Reach.{farthest};
ghost use Rattle.printed.specs.Programs.{after_it};
ghost use Rattle.visits.specs.Written.{Written};
ghost use Rattle.sentences.specs.Sentences.{preceding_at};
ghost use Rattle.passages.specs.Passages.{bare_at, opening_of, end_word, most_of_a_byte, most_around, most_of_a_program, statements, lists, branches, PassagePut, ProgramTextAt};

// Whether a branch with a list of that shape stands bare: one statement does, and after else an if.
fn is_bare(otherwise: bool, shape: u8) -> bool
    ensures { result ≡ bare_at otherwise shape }
{
    if shape == 1 {
        return true;
    }
    if otherwise {
        return shape == 2;
    }
    false
}

// Writes what stands in front of a branch.
fn put_opening(bare: bool, out: &mut [u8], at: usize, write: bool) -> usize
    requires { at ≤ farthest }
    ensures { PutAs write out.old at (opening_of bare) out.new result }
{
    if bare {
        return lent::put_bytes(out, at, b"", write);
    }
    lent::put_bytes(out, at, b"begin ", write)
}

// Writes what stands behind a branch.
fn put_closing(bare: bool, empty: bool, out: &mut [u8], at: usize, write: bool) -> usize
    requires { at ≤ farthest }
    ensures { PutAs write out.old at (end_word bare empty) out.new result }
{
    if bare {
        return lent::put_bytes(out, at, b"", write);
    }
    if empty {
        return lent::put_bytes(out, at, b"end", write);
    }
    lent::put_bytes(out, at, b" end", write)
}

// What precedes the statement behind one that is an item of a print, or is not.
fn preceding_of(item: bool) -> u8
    ensures { preceding_at result ≡ after_it item }
{
    if item {
        return 2;
    }
    1
}

// Writes the statement at i. An else branch without statements is left out.
#[cycle(put_branch_put_list_put_statement)]
fn put_statement(
    s: &[u8],
    i: usize,
    tags: &[u8],
    strings: &[u8],
    out: &mut [u8],
    at: usize,
    write: bool,
) -> clauses::Put
    requires { (i < length s.now) × (length s.now ≤ 65536) × (1 ≤ get_or s.now i 0) × (at + most_of_a_byte * length s.now ≤ farthest + most_of_a_byte * i + 8) }
    ensures { PassagePut statements (record { section = s.now; tags = tags.now; strings = strings.now }) i (record { write = write; lent = out.old; at = at }) result out.new }
{
    if s[i] != 10 {
        let to = sentences::put_plain(s, i, tags, strings, out, at, write);
        return clauses::Put {
            next: visits::past(s, i),
            at: to,
        };
    }
    let m = lent::put_bytes(out, at, b"if ", write);
    let c = clauses::put_condition(s, i + 1, 0, out, m, write);
    let n = lent::put_bytes(out, c.at, b" then ", write);
    let l = put_branch(s, c.next, false, tags, strings, out, n, write);
    let next = l.next;
    let to = l.at;
    if s.len() <= next {
        return l;
    }
    if s[next] == 0 {
        return clauses::Put {
            next: next + 1,
            at: to,
        };
    }
    let e = lent::put_bytes(out, to, b" else ", write);
    put_branch(s, next, true, tags, strings, out, e, write)
}

// Writes the branch of an if whose list starts at i.
#[cycle(put_branch_put_list_put_statement)]
fn put_branch(
    s: &[u8],
    i: usize,
    otherwise: bool,
    tags: &[u8],
    strings: &[u8],
    out: &mut [u8],
    at: usize,
    write: bool,
) -> clauses::Put
    requires { (i ≤ length s.now) × (length s.now ≤ 65536) × (at + most_around + most_of_a_byte * length s.now ≤ farthest + most_of_a_byte * i) }
    ensures { PassagePut (branches otherwise) (record { section = s.now; tags = tags.now; strings = strings.now }) i (record { write = write; lent = out.old; at = at }) result out.new }
{
    let shape = glances::shape_of(s, i);
    let bare = is_bare(otherwise, shape);
    let from = put_opening(bare, out, at, write);
    let l = put_list(s, i, 0, tags, strings, out, from, write);
    let to = put_closing(bare, shape == 0, out, l.at, write);
    clauses::Put {
        next: l.next,
        at: to,
    }
}

// Writes the statements from i on, to the 0 that ends them, behind what precedes them.
#[cycle(put_branch_put_list_put_statement)]
fn put_list(
    s: &[u8],
    i: usize,
    preceding: u8,
    tags: &[u8],
    strings: &[u8],
    out: &mut [u8],
    at: usize,
    write: bool,
) -> clauses::Put
    requires { (i ≤ length s.now) × (length s.now ≤ 65536) × (at + most_of_a_byte * length s.now ≤ farthest + most_of_a_byte * i) }
    ensures { PassagePut (lists (preceding_at preceding)) (record { section = s.now; tags = tags.now; strings = strings.now }) i (record { write = write; lent = out.old; at = at }) result out.new }
{
    if s.len() <= i {
        return clauses::Put { next: i, at: at };
    }
    let k = s[i];
    if k == 0 {
        return clauses::Put {
            next: i + 1,
            at: at,
        };
    }
    let item = sentences::is_item(k);
    let m = sentences::put_between(preceding, item, out, at, write);
    let t = put_statement(s, i, tags, strings, out, m, write);
    let after = preceding_of(item);
    put_list(s, t.next, after, tags, strings, out, t.at, write)
}

// Writes the program at i in braces.
pub fn put_program(
    programs: &[u8],
    i: usize,
    tags: &[u8],
    strings: &[u8],
    out: &mut [u8],
    at: usize,
    write: bool,
) -> usize
    requires { (length programs.now ≤ 65536) × (at + most_of_a_program ≤ farthest) }
    ensures { Written most_of_a_program (ProgramTextAt programs.now tags.now strings.now i) (record { write = write; lent = out.old; at = at }) result out.new }
{
    if programs.len() < i {
        return at;
    }
    let from = lent::put_bytes(out, at, b"{", write);
    let l = put_list(programs, i, 0, tags, strings, out, from, write);
    lent::put_bytes(out, l.at, b"}", write)
}
