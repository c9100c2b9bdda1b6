// Trees by their numbers, put together.
ghost use Rattle.std.specs.Prelude.{◌≡◌};
ghost use Rattle.sketches.specs.Figures.{nodes_with, depth_with, inner_of};
ghost use Rattle.paces.specs.Small.{tight, loose, vast, SmallFigure, SmallBeside, SmallSurround, SmallParen};
ghost use Rattle.paces.specs.Made.{BitIs, JoinedIs, WholeIs, FigureSealedIs, HeldIs, FrontingIs, BeyondIs};

// Joined to what stands to the left.
pub fn joined(b: sketches::Beside, e: sketches::Figure) -> sketches::Figure
    requires { SmallBeside loose b × SmallFigure vast e }
    ensures { JoinedIs b e result }
{
    if b.there {
        return sketches::Figure {
            nodes: b.nodes + e.nodes + 1,
            depth: lexing::larger(b.depth, e.depth) + 1,
            first: false,
            second: false,
        };
    }
    e
}

// The whole union, with an operand put behind what stands to the left.
pub fn whole(p: sketches::Paren, e: sketches::Figure) -> sketches::Figure
    requires { SmallParen loose p × SmallFigure loose e }
    ensures { WholeIs p e result }
{
    let cat = p.cat;
    let left = p.union;
    let c = joined(cat, e);
    joined(left, c)
}

// With the program in front, where a star makes room for a second one.
pub fn sealed(before: bool, e: sketches::Figure) -> sketches::Figure
    requires { SmallFigure vast e }
    ensures { FigureSealedIs before e result }
{
    if before {
        if e.first {
            return sketches::Figure {
                nodes: e.nodes + 1,
                depth: e.depth + 1,
                first: true,
                second: false,
            };
        }
        return sketches::Figure {
            nodes: e.nodes,
            depth: e.depth,
            first: true,
            second: e.second,
        };
    }
    e
}

// What a pair of parentheses holds.
pub fn held(p: sketches::Paren, e: sketches::Figure) -> sketches::Figure
    requires { SmallParen loose p × SmallFigure loose e }
    ensures { HeldIs p e result }
{
    let w = whole(p, e);
    sealed(p.before, w)
}

// 1 where both are so.
pub fn bit(a: bool, b: bool) -> usize
    ensures { BitIs a b result }
{
    if a {
        if b {
            return 1;
        }
    }
    0
}

// The nodes of a tree with what lies around it.
pub fn nodes_with(m: sketches::Surround, e: sketches::Figure) -> usize
    requires { SmallSurround vast m × SmallFigure vast e }
    ensures { result ≡ nodes_with m e }
{
    e.nodes + m.nodes + bit(e.first, m.star)
}

// Its depth.
pub fn depth_with(m: sketches::Surround, e: sketches::Figure) -> usize
    requires { SmallSurround vast m × SmallFigure vast e }
    ensures { result ≡ depth_with m e }
{
    lexing::larger(e.depth + m.depth + bit(e.first, m.star), m.least)
}

// What lies around, behind a program in front.
pub fn fronting(before: bool, m: sketches::Surround) -> sketches::Surround
    requires { SmallSurround vast m }
    ensures { FrontingIs before m result }
{
    if before {
        let more = bit(true, m.star);
        return sketches::Surround {
            nodes: m.nodes + more,
            depth: m.depth + more,
            least: m.least,
            star: true,
        };
    }
    m
}

// What lies around, right of an operator.
pub fn beyond(b: sketches::Beside, m: sketches::Surround) -> sketches::Surround
    requires { SmallBeside loose b × SmallSurround vast m }
    ensures { BeyondIs b m result }
{
    if b.there {
        return sketches::Surround {
            nodes: b.nodes + m.nodes + 1,
            depth: m.depth + 1,
            least: lexing::larger(b.depth + m.depth + 1, m.least),
            star: false,
        };
    }
    m
}

// What lies around a pair of parentheses that is opened in this one.
pub fn inner(p: sketches::Paren) -> sketches::Surround
    requires { SmallParen tight p }
    ensures { result ≡ inner_of p }
{
    let m = p.surround;
    let left = p.union;
    let cat = p.cat;
    let f = fronting(p.before, m);
    let u = beyond(left, f);
    beyond(cat, u)
}
