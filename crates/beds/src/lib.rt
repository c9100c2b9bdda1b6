// The nodes of a production's expression while it is read, token by token: node records in preorder, and where the parts of each open pair of
// parentheses begin among them.

#![tactic(auto)]

ghost use Rattle.std.specs.Prelude.{◌≡◌, ◌+◌, ◌≤◌};
ghost use Rattle.reading.specs.Expressions.{a_star, a_dot, a_bar, an_open, a_close};
ghost use Rattle.beds.specs.Bedded.{NodeIn, FieldIn, just_opened, LeafIs, PieceIs, SettledIs, FreshIs, BedStepIs, UnbracedIs, FinishedIs};

// The bytes of the most nodes that a production may have.
pub const MOST: usize = 192;

// The most pairs of parentheses inside one another.
pub const DEEPEST: usize = 32;

// Bytes, of which so many are nodes.
#[derive(Clone, Copy)]
pub struct Row {
    pub bytes: [u8; 192],
    pub length: usize,
}

// A pair of parentheses: at which byte its union, its concatenation and its operand begin, and the two bytes of the program in front, if one is there.
#[derive(Clone, Copy)]
pub struct Pair {
    pub union: usize,
    pub cat: usize,
    pub operand: usize,
    pub fronted: bool,
    pub low: u8,
    pub high: u8,
}

// The nodes, the innermost pair, and the pairs around it, outermost first.
#[derive(Clone, Copy)]
pub struct Bed {
    pub row: Row,
    pub here: Pair,
    pub around: [Pair; 32],
    pub open: usize,
}

// A pair that was just opened, at a byte.
fn opened_at(n: usize) -> Pair
    ensures { result ≡ just_opened n }
{
    Pair {
        union: n,
        cat: n,
        operand: n,
        fronted: false,
        low: 255,
        high: 255,
    }
}

impl Row {
    // A node without programs comes in at a byte, and what stood there moves up. Where there is no room all stays, which no text within its
    // limits comes to.
    fn with_node(self, at: usize, kind: u8, argument: u8) -> Row
        ensures { NodeIn self at kind argument result }
    {
        let n = self.length;
        if n > MOST - 6 {
            return self;
        }
        if at > n {
            return self;
        }
        let old = self.bytes;
        let mut bytes = self.bytes;
        let node = [kind, argument, 255, 255, 255, 255];
        let behind = lent::put_bytes(&mut bytes, at, &node, true);
        let end = lent::put_bytes(&mut bytes, behind, &old[at..n], true);
        Row {
            bytes: bytes,
            length: end,
        }
    }

    // The two bytes so far behind the start of a node are a program's.
    fn with_field(self, node: usize, skip: usize, low: u8, high: u8) -> Row
        requires { skip ≤ 4 }
        ensures { FieldIn self (node + skip) low high result }
    {
        if node > MOST {
            return self;
        }
        let mut bytes = self.bytes;
        let field = [low, high];
        let end = lent::put_bytes(&mut bytes, node + skip, &field, true);
        Row {
            bytes: bytes,
            length: self.length,
        }
    }
}

impl Bed {
    // Just behind the tag's own parenthesis.
    pub fn fresh() -> Bed
        ensures { FreshIs result }
    {
        let here = opened_at(0);
        Bed {
            row: Row {
                bytes: [0; 192],
                length: 0,
            },
            here: here,
            around: [here; 32],
            open: 0,
        }
    }

    // A nonterminal, any one character, or EMPTY.
    fn leaf(self, kind: u8, argument: u8) -> Bed
        ensures { LeafIs self kind argument result }
    {
        let row = self.row;
        let here = self.here;
        let around = self.around;
        Bed {
            row: row.with_node(row.length, kind, argument),
            here: here,
            around: around,
            open: self.open,
        }
    }

    // The operand becomes a star's.
    fn star(self) -> Bed
        ensures { PieceIs self a_star result }
    {
        let row = self.row;
        let here = self.here;
        let around = self.around;
        Bed {
            row: row.with_node(here.operand, 5, 0),
            here: here,
            around: around,
            open: self.open,
        }
    }

    // What was concatenated so far stands left of an operand.
    fn dot(self) -> Bed
        ensures { PieceIs self a_dot result }
    {
        let row = self.row;
        let here = self.here;
        let around = self.around;
        let longer = row.with_node(here.cat, 3, 0);
        Bed {
            row: longer,
            here: Pair {
                union: here.union,
                cat: here.cat,
                operand: longer.length,
                fronted: here.fronted,
                low: here.low,
                high: here.high,
            },
            around: around,
            open: self.open,
        }
    }

    // What was united so far stands left of a concatenation.
    fn bar(self) -> Bed
        ensures { PieceIs self a_bar result }
    {
        let row = self.row;
        let here = self.here;
        let around = self.around;
        let longer = row.with_node(here.union, 4, 0);
        Bed {
            row: longer,
            here: Pair {
                union: here.union,
                cat: longer.length,
                operand: longer.length,
                fronted: here.fronted,
                low: here.low,
                high: here.high,
            },
            around: around,
            open: self.open,
        }
    }

    // A pair of parentheses inside the innermost one.
    fn opened(self) -> Bed
        ensures { PieceIs self an_open result }
    {
        let open = self.open;
        if open < DEEPEST {
            let row = self.row;
            let mut around = self.around;
            let here = self.here;
            around[open] = here;
            return Bed {
                row: row,
                here: opened_at(row.length),
                around: around,
                open: open + 1,
            };
        }
        self
    }

    // The innermost pair's node has the program in front, and nothing of the pair is left but where it began.
    fn settled(self) -> Bed
        ensures { SettledIs self result }
    {
        let row = self.row;
        let here = self.here;
        let around = self.around;
        let begun = opened_at(here.union);
        if here.fronted {
            return Bed {
                row: row.with_field(here.union, 2, here.low, here.high),
                here: begun,
                around: around,
                open: self.open,
            };
        }
        Bed {
            row: row,
            here: begun,
            around: around,
            open: self.open,
        }
    }

    // The innermost pair ends: what it holds is the operand of the pair around it.
    fn closed(self) -> Bed
        ensures { PieceIs self a_close result }
    {
        let b = self.settled();
        let open = b.open;
        if open > DEEPEST {
            return b;
        }
        if open == 0 {
            return b;
        }
        let row = b.row;
        let around = b.around;
        let here = around[open - 1];
        Bed {
            row: row,
            here: here,
            around: around,
            open: open - 1,
        }
    }

    // A token outside programs.
    pub fn step(self, kind: usize, number: usize) -> Bed
        ensures { BedStepIs self kind number result }
    {
        match kind {
            0 => self.leaf(1, (number % 256) as u8),
            10 => self.leaf(2, 0),
            25 => self.opened(),
            26 => self.closed(),
            27 => self.settled(),
            29 => self.dot(),
            30 => self.bar(),
            31 => self.star(),
            34 => self.leaf(6, 0),
            _ => self,
        }
    }

    // Behind a program, whose field is given: in front of what a pair holds, or behind it.
    pub fn unbraced(self, second: bool, field: usize) -> Bed
        ensures { UnbracedIs self second field result }
    {
        let row = self.row;
        let here = self.here;
        let around = self.around;
        let low = (field % 256) as u8;
        let high = (field / 256 % 256) as u8;
        if second {
            return Bed {
                row: row.with_field(here.union, 4, low, high),
                here: here,
                around: around,
                open: self.open,
            };
        }
        Bed {
            row: row,
            here: Pair {
                union: here.union,
                cat: here.cat,
                operand: here.operand,
                fronted: true,
                low: low,
                high: high,
            },
            around: around,
            open: self.open,
        }
    }

    // The nodes of what stood between the tag's parentheses.
    pub fn finished(self) -> Row
        ensures { FinishedIs self result }
    {
        let b = self.settled();
        b.row
    }
}
