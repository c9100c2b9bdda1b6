// A place in a content model while it is read, by value: the model that was read last there, and what stands to its left in each open pair of
// parentheses; the nodes and the depth of all of it.

#![tactic(auto)]

ghost use Rattle.levels.specs.Levels.{BareLevelIs, OpenedIs, NamedIs, MarkIn, JoinIs, PushIs, CloseIs};
ghost use Rattle.levels.specs.Sizes.{RowSize, BehindSize, SizedAround, MeasuredAs, WantingAs};

use declarations::NodeRow;

// The most pairs of parentheses inside one another.
pub const DEEPEST: usize = 32;

// What stands to the left within one pair of parentheses: nothing (0), models with commas (3) or with bars (4), by their nodes.
#[derive(Clone, Copy)]
pub struct Level {
    pub kind: u8,
    pub nodes: NodeRow,
}

// The model that was read last, what stands to its left, and what stands to the left in the pairs around, outermost first.
#[derive(Clone, Copy)]
pub struct Nest {
    pub model: NodeRow,
    pub here: Level,
    pub around: [Level; 32],
    pub open: usize,
}

#[derive(Clone, Copy)]
pub struct ModelSize {
    pub nodes: usize,
    pub deep: usize,
}

// A pair of parentheses that was just opened.
fn bare_level() -> Level
    ensures { BareLevelIs result }
{
    Level {
        kind: 0,
        nodes: declarations::name_node(0),
    }
}

// How many nodes a row has, and how deep they go.
fn row_size(a: NodeRow) -> ModelSize
    ensures { RowSize a result }
{
    ModelSize {
        nodes: a.length / 2,
        deep: a.deep,
    }
}

// The size of a model behind what stands to its left; that of the model alone where one of them is too large, which none within its limits is.
fn behind_size(l: Level, s: ModelSize) -> ModelSize
    ensures { BehindSize l s result }
{
    if l.kind == 0 {
        return s;
    }
    let row = l.nodes;
    let left = row_size(row);
    let deeper = lexing::larger(left.deep, s.deep);
    let more = lexing::larger(left.nodes, s.nodes);
    if lexing::larger(more, deeper) > declarations::MOST {
        return s;
    }
    ModelSize {
        nodes: left.nodes + s.nodes + 1,
        deep: deeper + 1,
    }
}

impl Nest {
    // Behind the content's own parenthesis.
    pub fn opened() -> Nest
        ensures { OpenedIs result }
    {
        let here = bare_level();
        let model = declarations::name_node(0);
        Nest {
            model: model,
            here: here,
            around: [here; 32],
            open: 0,
        }
    }

    // Behind a name, by its nonterminal.
    pub fn named(self, number: u8) -> Nest
        ensures { NamedIs self number result }
    {
        let here = self.here;
        let around = self.around;
        Nest {
            model: declarations::name_node(number),
            here: here,
            around: around,
            open: self.open,
        }
    }

    // Behind a mark.
    pub fn mark(self, b: u8) -> Nest
        ensures { MarkIn self b result }
    {
        let model = self.model;
        let here = self.here;
        let around = self.around;
        Nest {
            model: declarations::marked(b, model),
            here: here,
            around: around,
            open: self.open,
        }
    }

    // Behind a comma (3) or a bar (4): the model stands to the left of the next.
    pub fn join(self, kind: u8) -> Nest
        ensures { JoinIs self kind result }
    {
        let model = self.model;
        let here = self.here;
        let around = self.around;
        let left = here.nodes;
        Nest {
            model: model,
            here: Level {
                kind: kind,
                nodes: declarations::behind(here.kind, left, model),
            },
            around: around,
            open: self.open,
        }
    }

    // Behind a parenthesis inside the innermost pair.
    pub fn push(self) -> Nest
        ensures { PushIs self result }
    {
        let open = self.open;
        if open < DEEPEST {
            let model = self.model;
            let here = self.here;
            let mut around = self.around;
            around[open] = here;
            return Nest {
                model: model,
                here: bare_level(),
                around: around,
                open: open + 1,
            };
        }
        self
    }

    // Behind the innermost pair: what it holds is a model of the pair around it. Where none is around, the model is the content's.
    pub fn close(self) -> Nest
        ensures { CloseIs self result }
    {
        let model = self.model;
        let here = self.here;
        let around = self.around;
        let left = here.nodes;
        let whole = declarations::behind(here.kind, left, model);
        let open = self.open;
        if open == 0 {
            return Nest {
                model: whole,
                here: here,
                around: around,
                open: 0,
            };
        }
        if open > DEEPEST {
            return self;
        }
        let outer = around[open - 1];
        Nest {
            model: whole,
            here: outer,
            around: around,
            open: open - 1,
        }
    }

    // The size of all, with a model of that size at the place.
    fn sized(self, s: ModelSize) -> ModelSize
        ensures { SizedAround self s result }
    {
        let here = self.here;
        let mut size = behind_size(here, s);
        let open = self.open;
        if open > DEEPEST {
            return size;
        }
        let around = self.around;
        for i in (0..open).rev() {
            let l = around[i];
            size = behind_size(l, size);
        }
        size
    }

    // The size of all, where every pair is closed behind the model.
    pub fn measure(self) -> ModelSize
        ensures { MeasuredAs self result }
    {
        let model = self.model;
        self.sized(row_size(model))
    }

    // The same where a name comes first.
    pub fn measure_wanting(self) -> ModelSize
        ensures { WantingAs self result }
    {
        self.sized(ModelSize { nodes: 1, deep: 1 })
    }
}
