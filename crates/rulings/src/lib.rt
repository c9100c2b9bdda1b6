// A reader of rules: where it stands in a text, and in the program that is being read there. It steps by kinds of token.

#![tactic(auto)]

ghost use Rattle.std.specs.Prelude.{◌≡◌, ◌<◌};
ghost use Rattle.lexemes.specs.Kinds.{kinds};
ghost use Rattle.rulings.specs.Readers.{Firm, ReadsAny, ReadsFor, Plain, AnswerIs, KindsTaken, StartIs, EndIs};

#[derive(Clone, Copy)]
pub struct Reader {
    pub draft: drafts::Draft,
    pub script: scripts::Script,
}

// The sign that ends a program.
fn unbraced(r: Reader) -> Option<Reader>
    requires { Firm r × ReadsAny r }
    ensures { AnswerIs r 28 result }
{
    let d = r.draft;
    let s = r.script;
    if s.ends() {
        return Some(Reader {
            draft: drafts::unbrace(d),
            script: s,
        });
    }
    None
}

// Another kind of token in a program.
fn within(r: Reader, kind: usize, second: bool) -> Option<Reader>
    requires { Firm r × (ReadsFor r second × (kind ≡ 28 → ⊥)) }
    ensures { AnswerIs r kind result }
{
    let d = r.draft;
    let s = r.script;
    let Some(next) = s.step(kind, second) else {
        return None;
    };
    Some(Reader {
        draft: d,
        script: next,
    })
}

// A kind of token outside programs.
fn outside(r: Reader, kind: usize) -> Option<Reader>
    requires { (kind < kinds) × (Firm r × Plain r) }
    ensures { AnswerIs r kind result }
{
    let d = r.draft;
    let Some(next) = drafts::step(d, kind) else {
        return None;
    };
    let s = scripts::Script::fresh();
    Some(Reader {
        draft: next,
        script: s,
    })
}

// A token of a kind: the reader behind it, where it is taken.
pub fn take(r: Reader, kind: usize) -> Option<Reader>
    requires { (kind < kinds) × Firm r }
    ensures { AnswerIs r kind result }
{
    let d = r.draft;
    let p = d.point;
    let w = drafts::place_of(p);
    if w.reads {
        if kind == 28 {
            return unbraced(r);
        }
        return within(r, kind, w.second);
    }
    outside(r, kind)
}

// Before the first token.
pub fn start() -> Reader
    ensures { StartIs result }
{
    let d = drafts::fresh();
    let s = scripts::Script::fresh();
    Reader {
        draft: d,
        script: s,
    }
}

// The kinds of token that may come.
pub fn row(r: Reader) -> [bool; 35]
    requires { Firm r }
    ensures { KindsTaken r result }
{
    let d = r.draft;
    let p = d.point;
    let w = drafts::place_of(p);
    if w.reads {
        let s = r.script;
        return rows::in_program(s, w.second);
    }
    rows::in_text(d)
}

// Whether the text may end.
pub fn may_end(r: Reader) -> bool
    ensures { EndIs r result }
{
    let d = r.draft;
    let p = d.point;
    let w = drafts::place_of(p);
    w.ends
}
