// Where a reader of rules stands, by numbers: of what has been read only how large it is and how deep. The parts are declared here; what they
// are of a state of the machine, and how they step with it, is in specs/; theorems in proofs/; no code.

#![tactic(auto)]

// A tree: its nodes, its depth, and whether its node has a program for its first visit and one for its second.
#[derive(Clone, Copy)]
pub struct Figure {
    pub nodes: usize,
    pub depth: usize,
    pub first: bool,
    pub second: bool,
}

// What stands left of an operator, if there is one: nodes and depth.
#[derive(Clone, Copy)]
pub struct Beside {
    pub there: bool,
    pub nodes: usize,
    pub depth: usize,
}

// What lies around a tree that is being read: so many nodes more, so many levels more, a depth that is reached elsewhere,
// and whether a program for the tree's own first visit asks for a star.
#[derive(Clone, Copy)]
pub struct Surround {
    pub nodes: usize,
    pub depth: usize,
    pub least: usize,
    pub star: bool,
}

// A pair of parentheses that is open: whether a program stands in front, what stands left of a |, of a . behind that, and what lies around the pair.
#[derive(Clone, Copy)]
pub struct Paren {
    pub before: bool,
    pub union: Beside,
    pub cat: Beside,
    pub surround: Surround,
}

// Where the reader stands, as the machine's states have it.
#[derive(Clone, Copy)]
pub enum Point {
    Beginning,
    FirstWord,
    Named,
    Defined,
    OwnFront,
    WantsTag,
    Tagged,
    Wants(bool, Paren),
    InFront(Surround),
    After(Figure, Paren),
    Behind(Figure, Surround),
    Over(Figure, Surround),
    Closed(usize),
    OwnBack(usize),
    Complete(usize),
}

// What a token is between a tag's parentheses.
#[derive(Clone, Copy)]
pub enum Inside {
    Other,
    Leaf, // a nonterminal, CHAR or EMPTY
    Star,
    Dot,
    Bar,
    Open,
    Close,
    Brace,
}

// What a token is elsewhere, outside programs.
#[derive(Clone, Copy)]
pub enum Outside {
    Other,
    Nonterminal,
    Name,
    Definition,
    Open,
    Brace,
}

// What a token does: nothing goes on; another point; a pair of parentheses is opened inside one, is closed around a tree, or is the tag's own
// and empty; the next production begins behind one of so many nodes.
#[derive(Clone, Copy)]
pub enum Move {
    Refused,
    To(Point),
    Opened(Paren),
    Closed(Figure),
    Emptied,
    Next(usize),
}
