// A look ahead over the statements of a program section: where a statement or a list of them ends, and whether a list is written as one statement.

#![tactic(auto)]

ghost use Rattle.std.specs.Prelude.{◌≡◌, ◌+◌, ◌≤◌, ◌<◌, length, get_or};
ghost use Rattle.programs.specs.Program.{condition_bytes, statement_bytes, program_bytes};
ghost use Rattle.glances.specs.Glances.{EndsAt, ItemsLeft, ShapeIs};

// The byte after the condition at i. What it comes to is not asked: any values do.
pub fn past_condition(s: &[u8], i: usize) -> usize
    requires { i ≤ length s.now }
    ensures { EndsAt condition_bytes 0 s.now i result }
{
    let values = [0; visits::Env::ATTRIBUTES];
    let c = visits::condition(s, i, values, values);
    c.next
}

// The byte after the statement at i.
#[cycle(past_list_past_statement)]
pub fn past_statement(s: &[u8], i: usize) -> usize
    requires { i < length s.now }
    ensures { EndsAt statement_bytes 1 s.now i result }
{
    if s[i] != 10 {
        return visits::past(s, i);
    }
    let c = past_condition(s, i + 1);
    let l = past_list(s, c);
    past_list(s, l)
}

// The byte after the 0 that ends the list at i.
#[cycle(past_list_past_statement)]
pub fn past_list(s: &[u8], i: usize) -> usize
    requires { i ≤ length s.now }
    ensures { EndsAt program_bytes 0 s.now i result }
{
    if s.len() <= i {
        return i;
    }
    if s[i] == 0 {
        return i + 1;
    }
    let n = past_statement(s, i);
    past_list(s, n)
}

// Whether all statements of the list at i are items of a print.
fn only_items(s: &[u8], i: usize) -> bool
    requires { i ≤ length s.now }
    ensures { ItemsLeft s.now i result }
{
    if s.len() <= i {
        return true;
    }
    let k = s[i];
    if k == 0 {
        return true;
    }
    if sentences::is_item(k) {
        let n = past_statement(s, i);
        return only_items(s, n);
    }
    false
}

// Whether the list at i is no statement, one that is no if, one if, or more: 0 to 3.
pub fn shape_of(s: &[u8], i: usize) -> u8
    requires { i ≤ length s.now }
    ensures { ShapeIs s.now i result }
{
    if s.len() <= i {
        return 0;
    }
    let k = s[i];
    if k == 0 {
        return 0;
    }
    let n = past_statement(s, i);
    if sentences::is_item(k) {
        if only_items(s, n) {
            return 1;
        }
        return 3;
    }
    if n < s.len() {
        if s[n] == 0 {
            if k == 10 {
                return 2;
            }
            return 1;
        }
    }
    3
}
