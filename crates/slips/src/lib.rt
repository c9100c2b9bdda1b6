// The production that is being read, by the numbers of its record: start, nonterminal, tag and programs, turned token by token.

#![tactic(auto)]

ghost use Rattle.std.specs.Prelude.{◌≡◌};
ghost use Rattle.desks.specs.Spots.{spot_of};
ghost use Rattle.slips.specs.Slips.{slip_turned};

// Where a reader stands, as a number.
pub fn spot(p: sketches::Point) -> usize
    ensures { result ≡ spot_of p }
{
    match p {
        sketches::Point::Beginning => 0,
        sketches::Point::FirstWord => 1,
        sketches::Point::Named => 2,
        sketches::Point::Defined => 3,
        sketches::Point::OwnFront => 4,
        sketches::Point::WantsTag => 5,
        sketches::Point::Tagged => 6,
        sketches::Point::Wants(_, _) => 7,
        sketches::Point::InFront(_) => 7,
        sketches::Point::After(_, _) => 7,
        sketches::Point::Behind(_, _) => 7,
        sketches::Point::Over(_, _) => 7,
        sketches::Point::Closed(_) => 8,
        sketches::Point::OwnBack(_) => 9,
        sketches::Point::Complete(_) => 10,
    }
}

#[derive(Clone, Copy)]
pub struct Slip {
    pub start: usize,
    pub nonterm: usize,
    pub tag: usize,
    pub front: usize,
    pub back: usize,
}

// One token more: a nonterminal outside expressions begins a production, a name is its tag, and a } ends one of its own programs. `place` is the number of
// the tag or of the program.
pub fn turn(old: Slip, here: usize, kind: usize, number: usize, place: usize) -> Slip
    ensures { result ≡ slip_turned old here kind number place }
{
    if kind == 0 {
        if here == 7 {
            return old;
        }
        if here == 0 {
            return Slip {
                start: number,
                nonterm: number,
                tag: old.tag,
                front: 0xFFFF,
                back: 0xFFFF,
            };
        }
        return Slip {
            start: old.start,
            nonterm: number,
            tag: old.tag,
            front: 0xFFFF,
            back: 0xFFFF,
        };
    }
    if kind == 5 {
        return Slip {
            start: old.start,
            nonterm: old.nonterm,
            tag: place,
            front: old.front,
            back: old.back,
        };
    }
    if kind != 28 {
        return old;
    }
    if here == 4 {
        return Slip {
            start: old.start,
            nonterm: old.nonterm,
            tag: old.tag,
            front: place,
            back: old.back,
        };
    }
    if here == 9 {
        return Slip {
            start: old.start,
            nonterm: old.nonterm,
            tag: old.tag,
            front: old.front,
            back: place,
        };
    }
    old
}
