// What a token does, by where it stands.
ghost use Rattle.std.specs.Prelude.{◌≡◌, ◌<◌};
ghost use Rattle.lexemes.specs.Kinds.{kinds};
ghost use Rattle.sketches.specs.Figures.{starred};
ghost use Rattle.sketches.specs.Moves.{inside_of, outside_of, wanted, dotted, barred, shut, backed_by, behind_operand, finishing, choice, move_of};
ghost use Rattle.paces.specs.Small.{tight, SmallFigure, SmallParen, SmallPoint};

pub const NOTHING: sketches::Beside = sketches::Beside {
    there: false,
    nodes: 0,
    depth: 0,
};

const BARE: sketches::Surround = sketches::Surround {
    nodes: 0,
    depth: 0,
    least: 0,
    star: false,
};

pub const LONE: sketches::Figure = sketches::Figure {
    nodes: 1,
    depth: 1,
    first: false,
    second: false,
};

// What a kind is between a tag's parentheses.
fn inside(kind: usize) -> sketches::Inside
    requires { kind < kinds }
    ensures { result ≡ inside_of kind }
{
    let row: [sketches::Inside; 35] = [
        sketches::Inside::Leaf,
        sketches::Inside::Other,
        sketches::Inside::Other,
        sketches::Inside::Other,
        sketches::Inside::Other,
        sketches::Inside::Other,
        sketches::Inside::Other,
        sketches::Inside::Other,
        sketches::Inside::Other,
        sketches::Inside::Other,
        sketches::Inside::Leaf,
        sketches::Inside::Other,
        sketches::Inside::Other,
        sketches::Inside::Other,
        sketches::Inside::Other,
        sketches::Inside::Other,
        sketches::Inside::Other,
        sketches::Inside::Other,
        sketches::Inside::Other,
        sketches::Inside::Other,
        sketches::Inside::Other,
        sketches::Inside::Other,
        sketches::Inside::Other,
        sketches::Inside::Other,
        sketches::Inside::Other,
        sketches::Inside::Open,
        sketches::Inside::Close,
        sketches::Inside::Brace,
        sketches::Inside::Other,
        sketches::Inside::Dot,
        sketches::Inside::Bar,
        sketches::Inside::Star,
        sketches::Inside::Other,
        sketches::Inside::Other,
        sketches::Inside::Leaf,
    ];
    row[kind]
}

// What a kind is elsewhere, outside programs.
fn outside(kind: usize) -> sketches::Outside
    requires { kind < kinds }
    ensures { result ≡ outside_of kind }
{
    let row: [sketches::Outside; 35] = [
        sketches::Outside::Nonterminal,
        sketches::Outside::Other,
        sketches::Outside::Other,
        sketches::Outside::Other,
        sketches::Outside::Other,
        sketches::Outside::Name,
        sketches::Outside::Other,
        sketches::Outside::Other,
        sketches::Outside::Other,
        sketches::Outside::Other,
        sketches::Outside::Other,
        sketches::Outside::Other,
        sketches::Outside::Other,
        sketches::Outside::Other,
        sketches::Outside::Other,
        sketches::Outside::Other,
        sketches::Outside::Other,
        sketches::Outside::Other,
        sketches::Outside::Other,
        sketches::Outside::Other,
        sketches::Outside::Other,
        sketches::Outside::Other,
        sketches::Outside::Other,
        sketches::Outside::Definition,
        sketches::Outside::Other,
        sketches::Outside::Open,
        sketches::Outside::Other,
        sketches::Outside::Brace,
        sketches::Outside::Other,
        sketches::Outside::Other,
        sketches::Outside::Other,
        sketches::Outside::Other,
        sketches::Outside::Other,
        sketches::Outside::Other,
        sketches::Outside::Other,
    ];
    row[kind]
}

// Where an operand is wanted.
fn wanted(b: bool, p: sketches::Paren, i: sketches::Inside) -> sketches::Move
    ensures { result ≡ wanted b p i }
{
    match i {
        sketches::Inside::Leaf => sketches::Move::To(sketches::Point::After(LONE, p)),
        sketches::Inside::Open => sketches::Move::Opened(p),
        sketches::Inside::Close => {
            if b {
                return sketches::Move::Emptied;
            }
            sketches::Move::Refused
        }
        sketches::Inside::Brace => {
            if b {
                let m = p.surround;
                return sketches::Move::To(sketches::Point::InFront(m));
            }
            sketches::Move::Refused
        }
        sketches::Inside::Star => sketches::Move::Refused,
        sketches::Inside::Dot => sketches::Move::Refused,
        sketches::Inside::Bar => sketches::Move::Refused,
        sketches::Inside::Other => sketches::Move::Refused,
    }
}

// The pair of parentheses behind a dot.
fn dotted(e: sketches::Figure, p: sketches::Paren) -> sketches::Paren
    requires { SmallFigure tight e × SmallParen tight p }
    ensures { result ≡ dotted e p }
{
    let cat = p.cat;
    let left = p.union;
    let m = p.surround;
    let c = crate::figures::joined(cat, e);
    sketches::Paren {
        before: p.before,
        union: left,
        cat: sketches::Beside {
            there: true,
            nodes: c.nodes,
            depth: c.depth,
        },
        surround: m,
    }
}

// And behind a bar.
fn barred(e: sketches::Figure, p: sketches::Paren) -> sketches::Paren
    requires { SmallFigure tight e × SmallParen tight p }
    ensures { result ≡ barred e p }
{
    let m = p.surround;
    let w = crate::figures::whole(p, e);
    sketches::Paren {
        before: p.before,
        union: sketches::Beside {
            there: true,
            nodes: w.nodes,
            depth: w.depth,
        },
        cat: NOTHING,
        surround: m,
    }
}

// The parenthesis behind a tree, where at most one program stands in front of its node.
fn shut(before: bool, e: sketches::Figure) -> sketches::Move
    ensures { result ≡ shut before e }
{
    if before {
        if e.first {
            return sketches::Move::Refused;
        }
        return sketches::Move::Closed(sketches::Figure {
            nodes: e.nodes,
            depth: e.depth,
            first: true,
            second: e.second,
        });
    }
    sketches::Move::Closed(e)
}

// A brace behind a tree, where its node has no program behind it either.
fn backed(before: bool, m: sketches::Surround, e: sketches::Figure) -> sketches::Move
    ensures { result ≡ backed_by before m e }
{
    if e.second {
        return sketches::Move::Refused;
    }
    if before {
        if e.first {
            return sketches::Move::Refused;
        }
        let f = sketches::Figure {
            nodes: e.nodes,
            depth: e.depth,
            first: true,
            second: true,
        };
        return sketches::Move::To(sketches::Point::Behind(f, m));
    }
    let f = sketches::Figure {
        nodes: e.nodes,
        depth: e.depth,
        first: e.first,
        second: true,
    };
    sketches::Move::To(sketches::Point::Behind(f, m))
}

// Behind an operand.
fn behind_operand(e: sketches::Figure, p: sketches::Paren, i: sketches::Inside) -> sketches::Move
    requires { SmallFigure tight e × SmallParen tight p }
    ensures { result ≡ behind_operand e p i }
{
    match i {
        sketches::Inside::Star => {
            let s = sketches::Figure {
                nodes: e.nodes + 1,
                depth: e.depth + 1,
                first: false,
                second: false,
            };
            sketches::Move::To(sketches::Point::After(s, p))
        }
        sketches::Inside::Dot => sketches::Move::To(sketches::Point::Wants(false, dotted(e, p))),
        sketches::Inside::Bar => sketches::Move::To(sketches::Point::Wants(false, barred(e, p))),
        sketches::Inside::Close => shut(p.before, crate::figures::whole(p, e)),
        sketches::Inside::Brace => {
            let m = p.surround;
            backed(p.before, m, crate::figures::whole(p, e))
        }
        sketches::Inside::Leaf => sketches::Move::Refused,
        sketches::Inside::Open => sketches::Move::Refused,
        sketches::Inside::Other => sketches::Move::Refused,
    }
}

// Behind the program behind.
fn finishing(e: sketches::Figure, i: sketches::Inside) -> sketches::Move
    ensures { result ≡ finishing e i }
{
    match i {
        sketches::Inside::Close => sketches::Move::Closed(e),
        sketches::Inside::Star => sketches::Move::Refused,
        sketches::Inside::Dot => sketches::Move::Refused,
        sketches::Inside::Bar => sketches::Move::Refused,
        sketches::Inside::Brace => sketches::Move::Refused,
        sketches::Inside::Leaf => sketches::Move::Refused,
        sketches::Inside::Open => sketches::Move::Refused,
        sketches::Inside::Other => sketches::Move::Refused,
    }
}

// Outside expressions: what a nonterminal, a name, ::=, ( or { does.
fn choice(
    o: sketches::Outside,
    n: sketches::Move,
    t: sketches::Move,
    d: sketches::Move,
    p: sketches::Move,
    b: sketches::Move,
) -> sketches::Move
    ensures { result ≡ choice o n t d p b }
{
    match o {
        sketches::Outside::Nonterminal => n,
        sketches::Outside::Name => t,
        sketches::Outside::Definition => d,
        sketches::Outside::Open => p,
        sketches::Outside::Brace => b,
        sketches::Outside::Other => sketches::Move::Refused,
    }
}

// Of a token of a kind, outside programs.
pub fn move_of(point: sketches::Point, kind: usize) -> sketches::Move
    requires { (kind < kinds) × SmallPoint tight point }
    ensures { result ≡ move_of point kind }
{
    let o = outside(kind);
    let i = inside(kind);
    let no = sketches::Move::Refused;
    match point {
        sketches::Point::Wants(b, p) => wanted(b, p, i),
        sketches::Point::After(e, p) => behind_operand(e, p, i),
        sketches::Point::Over(e, _) => finishing(e, i),
        sketches::Point::Beginning => choice(
            o,
            sketches::Move::To(sketches::Point::FirstWord),
            no,
            no,
            no,
            no,
        ),
        sketches::Point::FirstWord => {
            choice(
                o,
                sketches::Move::To(sketches::Point::Named),
                no,
                sketches::Move::To(sketches::Point::Defined),
                no,
                no,
            )
        }
        sketches::Point::Named => choice(
            o,
            no,
            no,
            sketches::Move::To(sketches::Point::Defined),
            no,
            no,
        ),
        sketches::Point::Defined => {
            choice(
                o,
                no,
                sketches::Move::To(sketches::Point::Tagged),
                no,
                no,
                sketches::Move::To(sketches::Point::OwnFront),
            )
        }
        sketches::Point::WantsTag => choice(
            o,
            no,
            sketches::Move::To(sketches::Point::Tagged),
            no,
            no,
            no,
        ),
        sketches::Point::Tagged => {
            let p = sketches::Paren {
                before: false,
                union: NOTHING,
                cat: NOTHING,
                surround: BARE,
            };
            choice(
                o,
                no,
                no,
                no,
                sketches::Move::To(sketches::Point::Wants(true, p)),
                no,
            )
        }
        sketches::Point::Closed(n) => {
            choice(
                o,
                sketches::Move::Next(n),
                no,
                no,
                no,
                sketches::Move::To(sketches::Point::OwnBack(n)),
            )
        }
        sketches::Point::Complete(n) => choice(o, sketches::Move::Next(n), no, no, no, no),
        sketches::Point::OwnFront => no,
        sketches::Point::InFront(_) => no,
        sketches::Point::Behind(_, _) => no,
        sketches::Point::OwnBack(_) => no,
    }
}
