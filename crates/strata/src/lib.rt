// One byte of a declaration: in the models of children, and at every station; what the shortest continuation makes, measured.

#![tactic(auto)]

ghost use Rattle.std.specs.Prelude.{◌≡◌, ◌≤◌};
ghost use Rattle.stages.specs.Steps.{ByteStepIs, PlainStep, NameStep, SizesAs};
ghost use Rattle.stages.specs.declared.Station.{Station};
ghost use Rattle.strata.specs.Particles.{is_mark, ParticleStep, JoinStep, CloseStep, MoreSize};

use declarations::NodeRow;
use levels::ModelSize;
use stages::{Fate, Headway, Moved, Station};

// Whether the byte is ?, * or +.
fn is_mark(b: u8) -> bool
    ensures { result ≡ is_mark b }
{
    (b == 63) | ((b == 42) | (b == 43))
}

// A name or a group begins.
fn particle(s: Headway, b: u8) -> Moved
    ensures { ParticleStep s b result }
{
    if text::name_first(b) {
        return s.on(Station::InName, 1);
    }
    if b == 40 {
        let nest = s.nest;
        if nest.open < levels::DEEPEST - 1 {
            let inner = s.with_nest(nest.push());
            return inner.on(Station::Wants, 0);
        }
        return s.told(Fate::Deep);
    }
    s.told(Fate::Refused)
}

// Behind the content's own parenthesis.
fn inside(s: Headway, b: u8) -> Moved
    ensures { PlainStep Station.Inside s b result }
{
    if text::blank(b) {
        return s.on(Station::Inside, 0);
    }
    if b == 35 {
        let characters = s.with_row(false, declarations::character_node());
        return characters.on(Station::Hashing, 0);
    }
    let begun = s.with_nest(levels::Nest::opened());
    particle(begun, b)
}

// Where a name or a group is wanted.
fn wants(s: Headway, b: u8) -> Moved
    ensures { PlainStep Station.Wants s b result }
{
    if text::blank(b) {
        return s.on(Station::Wants, 0);
    }
    particle(s, b)
}

// A comma (3) or a bar (4) behind a model, where none of the other stands to the left.
fn joined(s: Headway, kind: u8, other: u8) -> Moved
    ensures { JoinStep s kind other result }
{
    let nest = s.nest;
    let here = nest.here;
    if here.kind == other {
        return s.told(Fate::Refused);
    }
    let more = s.with_nest(nest.join(kind));
    more.on(Station::Wants, 0)
}

// A pair of parentheses closes.
fn closed(s: Headway) -> Moved
    ensures { CloseStep s result }
{
    let nest = s.nest;
    let around = nest.close();
    if nest.open == 0 {
        let model = around.model;
        let whole = s.with_row(false, model);
        return whole.on(Station::GroupClosed, 0);
    }
    let inner = s.with_nest(around);
    inner.on(Station::Marking, 0)
}

// Behind a model and its mark.
fn after(s: Headway, b: u8) -> Moved
    ensures { PlainStep Station.After s b result }
{
    if text::blank(b) {
        return s.on(Station::After, 0);
    }
    if b == 44 {
        return joined(s, 3, 4);
    }
    if b == 124 {
        return joined(s, 4, 3);
    }
    if b == 41 {
        return closed(s);
    }
    s.told(Fate::Refused)
}

// Behind a group or a name, where a mark may stand.
fn marking(s: Headway, b: u8) -> Moved
    ensures { PlainStep Station.Marking s b result }
{
    if is_mark(b) {
        let nest = s.nest;
        let marked = s.with_nest(nest.mark(b));
        return marked.on(Station::After, 0);
    }
    after(s, b)
}

// In a name, which has that number where it ends here.
fn in_name(s: Headway, b: u8, number: u8) -> Moved
    ensures { NameStep Station.InName s b number result }
{
    if text::name_byte(b) {
        return s.longer(Station::InName);
    }
    let nest = s.nest;
    let named = s.with_nest(nest.named(number));
    marking(named, b)
}

// Behind the content's own closing parenthesis.
fn group_closed(s: Headway, b: u8) -> Moved
    ensures { PlainStep Station.GroupClosed s b result }
{
    if is_mark(b) {
        let row = s.row;
        let marked = s.with_row(false, declarations::marked(b, row));
        return marked.on(Station::Ended, 0);
    }
    s.ended(b)
}

// One byte of a declaration. Where a name of the content ends before it, that name has the number.
pub fn step(s: Headway, b: u8, number: u8) -> Moved
    ensures { ByteStepIs s b number result }
{
    let station = s.station;
    match station {
        Station::Opening => s.opening(b),
        Station::Naming => s.naming(b),
        Station::Named => s.own_name(b),
        Station::Contents => s.contents(b),
        Station::Emptying => s.emptying(b),
        Station::Inside => inside(s, b),
        Station::Hashing => s.hashing(b),
        Station::Mixing => s.mixing(b),
        Station::Barred => s.barred(b),
        Station::MixedName => s.mixed_name(b, number),
        Station::MixedClosed => s.mixed_closed(b),
        Station::Wants => wants(s, b),
        Station::InName => in_name(s, b, number),
        Station::Marking => marking(s, b),
        Station::After => after(s, b),
        Station::GroupClosed => group_closed(s, b),
        Station::Ended => s.ended(b),
    }
}

// The size of nodes with so many more, so much deeper; none where they are deeper than a row has bytes, which none is.
fn with_more(row: NodeRow, nodes: usize, deep: usize) -> ModelSize
    requires { (nodes ≤ 3) × (deep ≤ 3) }
    ensures { MoreSize row nodes deep result }
{
    if row.deep > declarations::MOST {
        return ModelSize { nodes: 0, deep: 0 };
    }
    ModelSize {
        nodes: row.length / 2 + nodes,
        deep: row.deep + deep,
    }
}

// The nodes and the depth of the shortest whole.
pub fn measure(s: Headway) -> ModelSize
    ensures { SizesAs s result }
{
    let none = ModelSize { nodes: 0, deep: 0 };
    let row = s.row;
    let nest = s.nest;
    let station = s.station;
    match station {
        Station::Opening => none,
        Station::Naming => none,
        Station::Named => none,
        Station::Contents => none,
        Station::Emptying => none,
        Station::Inside => ModelSize { nodes: 1, deep: 1 },
        Station::Hashing => with_more(row, 1, 1),
        Station::Mixing => with_more(row, 1, 1),
        Station::Barred => with_more(row, 3, 2),
        Station::MixedName => with_more(row, 3, 2),
        Station::MixedClosed => with_more(row, 1, 1),
        Station::Wants => nest.measure_wanting(),
        Station::InName => nest.measure_wanting(),
        Station::Marking => nest.measure(),
        Station::After => nest.measure(),
        Station::GroupClosed => with_more(row, 0, 0),
        Station::Ended => with_more(row, 0, 0),
    }
}
