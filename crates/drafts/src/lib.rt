// Where a reader of rules stands, in numbers and an array of open parentheses: it steps by kinds of token.

#![tactic(auto)]

ghost use Rattle.std.specs.Prelude.{◌≡◌, ◌≤◌, ◌<◌};
ghost use Rattle.lexemes.specs.Kinds.{kinds};
ghost use Rattle.sketches.specs.declared.Move.{Move};
ghost use Rattle.sketches.specs.Moves.{after_move_lem, sketch_fits, sketch_start, unbraced_sketch};
ghost use Rattle.sketches.specs.Figures.{nodes_with, depth_with};
ghost use Rattle.paces.specs.Small.{tight, loose, vast, SmallFigure, SmallSurround, SmallParen, SmallPoint};
ghost use Rattle.drafts.specs.Drafted.{sketch_of, SteppedIs, SmallMove, SoundDraft, SizeIs, DraftStepIs, DraftIs, plainly, reading, PointIs};

// A place in a text: the point, the pairs of parentheses around, outermost first, how many they are, and how many productions and nodes stand
// before this production.
#[derive(Clone, Copy)]
pub struct Draft {
    pub point: sketches::Point,
    pub around: [sketches::Paren; 32],
    pub open: usize,
    pub productions: usize,
    pub earlier: usize,
}

// Another point, with the same around it.
fn to(d: Draft, p: sketches::Point) -> Option<Draft>
    ensures { SteppedIs (after_move_lem (sketch_of d) (Move.To p)) result }
{
    let around = d.around;
    Some(Draft {
        point: p,
        around: around,
        open: d.open,
        productions: d.productions,
        earlier: d.earlier,
    })
}

// A pair of parentheses inside one.
fn opened(d: Draft, p: sketches::Paren) -> Option<Draft>
    requires { SmallParen tight p }
    ensures { SteppedIs (after_move_lem (sketch_of d) (Move.Opened p)) result }
{
    let open = d.open;
    if open < 32 {
        let mut around = d.around;
        around[open] = p;
        let m = paces::figures::inner(p);
        let q = sketches::Paren {
            before: false,
            union: paces::moves::NOTHING,
            cat: paces::moves::NOTHING,
            surround: m,
        };
        return Some(Draft {
            point: sketches::Point::Wants(true, q),
            around: around,
            open: open + 1,
            productions: d.productions,
            earlier: d.earlier,
        });
    }
    None
}

// A pair closed around a tree.
fn closed(d: Draft, e: sketches::Figure) -> Option<Draft>
    requires { d.open ≤ tight }
    ensures { SteppedIs (after_move_lem (sketch_of d) (Move.Closed e)) result }
{
    let around = d.around;
    let open = d.open;
    if open == 0 {
        return to(d, sketches::Point::Closed(e.nodes));
    }
    let p = around[open - 1];
    Some(Draft {
        point: sketches::Point::After(e, p),
        around: around,
        open: open - 1,
        productions: d.productions,
        earlier: d.earlier,
    })
}

// The tag's own pair closed around nothing.
fn emptied(d: Draft) -> Option<Draft>
    ensures { SteppedIs (after_move_lem (sketch_of d) Move.Emptied) result }
{
    if d.open == 0 {
        return to(d, sketches::Point::Closed(0));
    }
    None
}

// The next production, behind one of so many nodes.
fn next(d: Draft, n: usize) -> Option<Draft>
    requires { (d.productions ≤ loose) × ((d.earlier ≤ loose) × (n ≤ loose)) }
    ensures { SteppedIs (after_move_lem (sketch_of d) (Move.Next n)) result }
{
    let around = d.around;
    Some(Draft {
        point: sketches::Point::Named,
        around: around,
        open: d.open,
        productions: d.productions + 1,
        earlier: d.earlier + n,
    })
}

// What a move makes of a draft.
fn after_move(d: Draft, m: sketches::Move) -> Option<Draft>
    requires { SoundDraft d × SmallMove m }
    ensures { SteppedIs (after_move_lem (sketch_of d) m) result }
{
    match m {
        sketches::Move::Refused => None,
        sketches::Move::To(p) => to(d, p),
        sketches::Move::Opened(p) => opened(d, p),
        sketches::Move::Closed(e) => closed(d, e),
        sketches::Move::Emptied => emptied(d),
        sketches::Move::Next(n) => next(d, n),
    }
}

// The nodes and the depth of a tree with what lies around it.
#[derive(Clone, Copy)]
struct Size {
    nodes: usize,
    depth: usize,
}

fn size_with(m: sketches::Surround, e: sketches::Figure) -> Size
    requires { SmallSurround vast m × SmallFigure vast e }
    ensures { (result.nodes ≡ nodes_with m e) × (result.depth ≡ depth_with m e) }
{
    Size {
        nodes: paces::figures::nodes_with(m, e),
        depth: paces::figures::depth_with(m, e),
    }
}

// The shortest continuation's expression.
fn size_there(p: sketches::Point, unclosed: usize) -> Size
    requires { SmallPoint loose p }
    ensures { SizeIs p unclosed result.nodes result.depth }
{
    match p {
        sketches::Point::Wants(b, q) => {
            let m = q.surround;
            if b {
                if unclosed == 0 {
                    return Size { nodes: 0, depth: 0 };
                }
                return size_with(m, paces::moves::LONE);
            }
            size_with(m, paces::figures::held(q, paces::moves::LONE))
        }
        sketches::Point::InFront(m) => {
            size_with(
                m,
                sketches::Figure {
                    nodes: 1,
                    depth: 1,
                    first: true,
                    second: false,
                },
            )
        }
        sketches::Point::After(e, q) => {
            let m = q.surround;
            size_with(m, paces::figures::held(q, e))
        }
        sketches::Point::Behind(e, m) => size_with(m, e),
        sketches::Point::Over(e, m) => size_with(m, e),
        sketches::Point::Closed(n) => Size { nodes: n, depth: 0 },
        sketches::Point::OwnBack(n) => Size { nodes: n, depth: 0 },
        sketches::Point::Complete(n) => Size { nodes: n, depth: 0 },
        sketches::Point::Beginning => Size { nodes: 0, depth: 0 },
        sketches::Point::FirstWord => Size { nodes: 0, depth: 0 },
        sketches::Point::Named => Size { nodes: 0, depth: 0 },
        sketches::Point::Defined => Size { nodes: 0, depth: 0 },
        sketches::Point::OwnFront => Size { nodes: 0, depth: 0 },
        sketches::Point::WantsTag => Size { nodes: 0, depth: 0 },
        sketches::Point::Tagged => Size { nodes: 0, depth: 0 },
    }
}

// Whether the shortest continuation keeps the limits of a text.
fn fits(d: Draft) -> bool
    requires { SmallPoint loose d.point × (d.earlier ≤ loose) }
    ensures { result ≡ sketch_fits (sketch_of d) }
{
    let p = d.point;
    let s = size_there(p, d.open);
    if s.nodes < 33 {
        if s.depth < 13 {
            if d.productions < 64 {
                return d.earlier + s.nodes < 257;
            }
        }
    }
    false
}

// The start of a text.
pub fn fresh() -> Draft
    ensures { DraftIs sketch_start result }
{
    let paren = sketches::Paren {
        before: false,
        union: paces::moves::NOTHING,
        cat: paces::moves::NOTHING,
        surround: sketches::Surround {
            nodes: 0,
            depth: 0,
            least: 0,
            star: false,
        },
    };
    Draft {
        point: sketches::Point::Beginning,
        around: [paren; 32],
        open: 0,
        productions: 0,
        earlier: 0,
    }
}

// A token of a kind, outside programs.
pub fn step(d: Draft, kind: usize) -> Option<Draft>
    requires { (kind < kinds) × SoundDraft d }
    ensures { DraftStepIs d kind result }
{
    let p = d.point;
    let m = paces::moves::move_of(p, kind);
    // What was made is handed on as it is: it is large, and an Option made anew copies it once more.
    let s = after_move(d, m);
    let Some(e) = s else {
        return None;
    };
    if fits(e) {
        return s;
    }
    None
}

// What a point says besides: whether a program is being read there, whether for the second visit, whether a text may end there, and the point
// behind the program.
#[derive(Clone, Copy)]
pub struct Place {
    pub reads: bool,
    pub second: bool,
    pub ends: bool,
    pub behind: sketches::Point,
}

fn plain(p: sketches::Point, ends: bool) -> Place
    ensures { result ≡ plainly p ends }
{
    Place {
        reads: false,
        second: false,
        ends: ends,
        behind: p,
    }
}

fn program(second: bool, behind: sketches::Point) -> Place
    ensures { result ≡ reading second behind }
{
    Place {
        reads: true,
        second: second,
        ends: false,
        behind: behind,
    }
}

pub fn place_of(p: sketches::Point) -> Place
    ensures { PointIs p result }
{
    match p {
        sketches::Point::Beginning => plain(p, false),
        sketches::Point::FirstWord => plain(p, false),
        sketches::Point::Named => plain(p, false),
        sketches::Point::Defined => plain(p, false),
        sketches::Point::WantsTag => plain(p, false),
        sketches::Point::Tagged => plain(p, false),
        sketches::Point::Wants(_, _) => plain(p, false),
        sketches::Point::After(_, _) => plain(p, false),
        sketches::Point::Over(_, _) => plain(p, false),
        sketches::Point::Closed(_) => plain(p, true),
        sketches::Point::Complete(_) => plain(p, true),
        sketches::Point::OwnFront => program(false, sketches::Point::WantsTag),
        sketches::Point::InFront(m) => {
            let q = sketches::Paren {
                before: true,
                union: paces::moves::NOTHING,
                cat: paces::moves::NOTHING,
                surround: m,
            };
            program(false, sketches::Point::Wants(false, q))
        }
        sketches::Point::Behind(e, m) => program(true, sketches::Point::Over(e, m)),
        sketches::Point::OwnBack(n) => program(true, sketches::Point::Complete(n)),
    }
}

// Behind the program that was read.
pub fn unbrace(d: Draft) -> Draft
    requires { SoundDraft d }
    ensures { DraftIs (unbraced_sketch (sketch_of d)) result }
{
    let around = d.around;
    let p = d.point;
    let w = place_of(p);
    let behind = w.behind;
    Draft {
        point: behind,
        around: around,
        open: d.open,
        productions: d.productions,
        earlier: d.earlier,
    }
}
