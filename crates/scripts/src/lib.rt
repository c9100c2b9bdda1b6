// The outline of a program that is being read, by value: it takes the kind of the next token, or refuses it.

#![tactic(auto)]

ghost use Rattle.std.specs.Prelude.{◌≡◌, true, false, cond, [], ◌∷◌, suc, ◌≤◌, ◌<◌};
ghost use Rattle.std.proofs.Math.Option.{none, some};
ghost use Rattle.programs.specs.Parsed.{which_visit};
ghost use Rattle.outlines.specs.Extents.{comparison, paired, in_turn, branching, unnested, vacant, ExtentWithin};
ghost use Rattle.outlines.specs.Kinds.{is_sign, is_operand};
ghost use Rattle.notation.specs.Tokens.{ASSIGNED};
ghost use Rattle.reading.specs.Statements as reading;
ghost use Rattle.outlines.specs.Conditions.{paired_with, up_to_and, whole_of, with_margins, blank_margin, a_single, an_equals, an_operand, wanting, behind, got_at, not_at, open_at, step_wanting, step_behind, read_condition};
ghost use Rattle.outlines.specs.Statements.{wrapped, wrapped_in, closed_list, else_of, at, at_operand, then_of, past, in_condition, outlined, none_outside, begun_at, ended_in, ended_at, step_at, elsed_at, step_past, step_item, step_outline, step_tested, ends_here, finished, kernel, outline_start};
ghost use Rattle.outlines.specs.Shape.{ExtentUnder, LayerUnder, LayersUnder, SideUnder, MarginUnder, MarginsUnder};
ghost use Rattle.extents.specs.Held.{extent_of, side_of, margin_of, layer_of, layers_at, margins_at, most_around, most_margins};
ghost use Rattle.scripts.specs.Scripts.{reading_place, stage_of, layers_in, margins_in, outline_of, Standing, LayerRoom, MarginRoom, ScriptFirm, answer_of, tested_of, separated_as, unblocked_as, Stepped};

use extents::{Around, Extent, Layer, Margin};

#[derive(Clone, Copy)]
pub enum Place {
    Opening,
    Separated,
    Branching,
}

// What comes next: a statement, an assignment's sign or operand, an item; in a condition what is wanted there, or what may follow; what may follow a statement.
#[derive(Clone, Copy)]
pub enum Stage {
    At(Place),
    Assign,
    Operand,
    Item,
    Single,
    Equals,
    Other,
    Behind(Extent, Option<Extent>),
    Past(bool, Extent),
}

// A program that is being read: where, what lies around the place, outermost first, and the open parentheses' margins, outermost first.
#[derive(Clone, Copy)]
pub struct Script {
    pub stage: Stage,
    pub layers: [Around; Around::MOST],
    pub depth: usize,
    pub margins: [Margin; Margin::MOST],
    pub deep: usize,
}

impl Script {
    pub fn fresh() -> Script
        ensures { (outline_of result ≡ outline_start) × Standing result }
    {
        let nothing = Extent {
            bytes: 0,
            nested: 0,
        };
        let layer = Layer::Among(nothing);
        let around = Around { layer: layer };
        let margin = Margin {
            or_left: None,
            and_left: None,
            nots: 0,
        };
        let layers = [around; Around::MOST];
        let margins = [margin; Margin::MOST];
        let place = Place::Opening;
        let stage = Stage::At(place);
        Script {
            stage: stage,
            layers: layers,
            depth: 1,
            margins: margins,
            deep: 0,
        }
    }

    // The same with another stage.
    fn staged(self, stage: Stage) -> Option<Script>
        ensures { answer_of result ≡ some (outlined (stage_of stage (margins_in self)) (layers_in self)) }
    {
        let layers = self.layers;
        let margins = self.margins;
        Some(Script {
            stage: stage,
            layers: layers,
            depth: self.depth,
            margins: margins,
            deep: self.deep,
        })
    }

    // With the first n layers, and one more.
    fn layered(self, n: usize, layer: Layer, stage: Stage) -> Option<Script>
        requires { n < most_around }
        ensures { answer_of result ≡ some (outlined (stage_of stage (margins_in self)) (layer_of layer ∷ layers_at self.layers n)) }
    {
        let mut layers = self.layers;
        let margins = self.margins;
        let around = Around { layer: layer };
        layers[n] = around;
        Some(Script {
            stage: stage,
            layers: layers,
            depth: n + 1,
            margins: margins,
            deep: self.deep,
        })
    }

    // With the first n margins, and one more.
    fn margined(self, n: usize, margin: Margin, stage: Stage) -> Option<Script>
        requires { n < most_margins }
        ensures { answer_of result ≡ some (outlined (stage_of stage (margin_of margin ∷ margins_at self.margins n)) (layers_in self)) }
    {
        let layers = self.layers;
        let mut margins = self.margins;
        margins[n] = margin;
        Some(Script {
            stage: stage,
            layers: layers,
            depth: self.depth,
            margins: margins,
            deep: n + 1,
        })
    }

    // A list ends that lies in the first n layers.
    fn ended(self, n: usize, p: Extent) -> Option<Script>
        ensures { answer_of result ≡ ended_in (layers_at self.layers n) (extent_of p) }
    {
        if n == 0 {
            return None;
        }
        let layers = self.layers;
        let margins = self.margins;
        let stage = Stage::Past(false, p);
        Some(Script {
            stage: stage,
            layers: layers,
            depth: n,
            margins: margins,
            deep: self.deep,
        })
    }

    fn begin(self, place: Place) -> Option<Script>
        requires { LayerRoom self }
        ensures { answer_of result ≡ begun_at (reading_place place) (layers_in self) }
    {
        match place {
            Place::Opening => None,
            Place::Separated => None,
            Place::Branching => {
                let nothing = Extent {
                    bytes: 0,
                    nested: 0,
                };
                let layer = Layer::Among(nothing);
                let opening = Place::Opening;
                let stage = Stage::At(opening);
                let n = self.depth;
                self.layered(n, layer, stage)
            }
        }
    }

    // An end where a list opens.
    fn end(self, place: Place) -> Option<Script>
        requires { LayerRoom self }
        ensures { answer_of result ≡ ended_at (reading_place place) (layers_in self) }
    {
        match place {
            Place::Opening => {
                let nothing = Extent {
                    bytes: 0,
                    nested: 0,
                };
                let layers = self.layers;
                let n = self.depth;
                let closed = extents::close(layers, n, nothing);
                let left = closed.left;
                self.ended(left, nothing)
            }
            Place::Separated => None,
            Place::Branching => None,
        }
    }

    // The blank margin of a condition that begins.
    fn test(self) -> Option<Script>
        ensures { answer_of result ≡ some (outlined (in_condition (wanting a_single (blank_margin ∷ []))) (layers_in self)) }
    {
        let margin = Margin {
            or_left: None,
            and_left: None,
            nots: 0,
        };
        let stage = Stage::Single;
        self.margined(0, margin, stage)
    }

    // Behind a statement of so many bytes that nests nothing.
    fn plain(self, print: bool, bytes: usize) -> Option<Script>
        ensures { answer_of result ≡ some (outlined (past print (unnested bytes)) (layers_in self)) }
    {
        let e = Extent {
            bytes: bytes,
            nested: 0,
        };
        let stage = Stage::Past(print, e);
        self.staged(stage)
    }

    // Where a statement may begin.
    fn start(self, place: Place, kind: usize, second: bool) -> Option<Script>
        requires { LayerRoom self }
        ensures { answer_of result ≡ step_at (which_visit second) (reading_place place) (layers_in self) kind }
    {
        if extents::is_plain(kind, second) {
            return self.plain(false, 1);
        }
        if extents::is_target(kind, second) {
            let stage = Stage::Assign;
            return self.staged(stage);
        }
        if kind == 14 {
            let stage = Stage::Item;
            return self.staged(stage);
        }
        if kind == 15 {
            return self.test();
        }
        if kind == 18 {
            return self.begin(place);
        }
        if kind == 19 {
            return self.end(place);
        }
        None
    }

    // Where an item is wanted.
    fn item(self, kind: usize) -> Option<Script>
        ensures { answer_of result ≡ step_item (layers_in self) kind }
    {
        if extents::is_short_item(kind) {
            return self.plain(true, 2);
        }
        if extents::is_long_item(kind) {
            return self.plain(true, 4);
        }
        None
    }

    // An else: it is the nearest if's that has none.
    fn otherwise(self, p: Extent) -> Option<Script>
        requires layer_room { LayerRoom self }
        requires extent_under { ExtentUnder 1000 (extent_of p) }
        ensures { answer_of result ≡ elsed_at (else_of (layers_in self) (extent_of p)) }
    {
        let layers = self.layers;
        let mut e = p;
        for i in (0..self.depth).rev() {
            let a = layers[i];
            let l = a.layer;
            match l {
                Layer::Among(b) => return None,
                Layer::Then(c) => {
                    let layer = Layer::Else(c, e);
                    let branching = Place::Branching;
                    let stage = Stage::At(branching);
                    return self.layered(i, layer, stage);
                }
                Layer::Else(c, q) => e = extents::branch(c, q, e),
            }
        }
        None
    }

    // A statement p ends, with a ; behind it.
    fn separate(self, p: Extent) -> Option<Script>
        requires layer_room { LayerRoom self }
        requires extent_under { ExtentUnder 1000 (extent_of p) }
        ensures { answer_of result ≡ separated_as (closed_list (layers_in self) (extent_of p)) }
    {
        let layers = self.layers;
        let n = self.depth;
        let closed = extents::close(layers, n, p);
        let whole = closed.whole;
        let left = closed.left;
        let layer = Layer::Among(whole);
        let separated = Place::Separated;
        let stage = Stage::At(separated);
        self.layered(left, layer, stage)
    }

    // A list ends behind p.
    fn unblock(self, p: Extent) -> Option<Script>
        requires layer_room { LayerRoom self }
        requires extent_under { ExtentUnder 1000 (extent_of p) }
        ensures { answer_of result ≡ unblocked_as (closed_list (layers_in self) (extent_of p)) }
    {
        let layers = self.layers;
        let n = self.depth;
        let closed = extents::close(layers, n, p);
        let whole = closed.whole;
        let left = closed.left;
        self.ended(left, whole)
    }

    // One more item, of so many bytes.
    fn more(self, p: Extent, bytes: usize) -> Option<Script>
        requires extent_under { ExtentUnder 1000 (extent_of p) }
        requires bytes_bound { bytes ≤ 4 }
        ensures { answer_of result ≡ some (outlined (past true (in_turn (extent_of p) (unnested bytes))) (layers_in self)) }
    {
        let item = Extent {
            bytes: bytes,
            nested: 0,
        };
        let e = extents::in_turn(p, item);
        let stage = Stage::Past(true, e);
        self.staged(stage)
    }

    // Behind a statement.
    fn follow(self, print: bool, p: Extent, kind: usize) -> Option<Script>
        requires layer_room { LayerRoom self }
        requires extent_under { ExtentUnder 1000 (extent_of p) }
        ensures { answer_of result ≡ step_past print (extent_of p) (closed_list (layers_in self) (extent_of p)) (layers_in self) kind }
    {
        if print & extents::is_short_item(kind) {
            return self.more(p, 2);
        }
        if print & extents::is_long_item(kind) {
            return self.more(p, 4);
        }
        if kind == 32 {
            return self.separate(p);
        }
        if kind == 17 {
            return self.otherwise(p);
        }
        if kind == 19 {
            return self.unblock(p);
        }
        None
    }

    // One more not.
    fn not(self) -> Option<Script>
        requires { MarginRoom self }
        ensures { answer_of result ≡ tested_of (layers_in self) (not_at (margins_in self)) }
    {
        let deep = self.deep;
        if deep == 0 {
            return None;
        }
        let margins = self.margins;
        let m = margins[deep - 1];
        let o = m.or_left;
        let a = m.and_left;
        let margin = Margin {
            or_left: o,
            and_left: a,
            nots: m.nots + 1,
        };
        let stage = Stage::Single;
        self.margined(deep - 1, margin, stage)
    }

    // A parenthesis opens.
    fn parenthesis(self) -> Option<Script>
        requires { MarginRoom self }
        ensures { answer_of result ≡ tested_of (layers_in self) (open_at (margins_in self)) }
    {
        let deep = self.deep;
        if deep == 0 {
            return None;
        }
        if Margin::MOST <= deep {
            return None;
        }
        let margin = Margin {
            or_left: None,
            and_left: None,
            nots: 0,
        };
        let stage = Stage::Single;
        self.margined(deep, margin, stage)
    }

    // A single condition c is read.
    fn got(self, c: Extent) -> Option<Script>
        requires margin_room { MarginRoom self }
        requires extent_under { ExtentUnder 10000 (extent_of c) }
        ensures { answer_of result ≡ tested_of (layers_in self) (got_at (margins_in self) (extent_of c)) }
    {
        let deep = self.deep;
        if deep == 0 {
            return None;
        }
        let layers = self.layers;
        let margins = self.margins;
        let m = margins[deep - 1];
        let o = m.or_left;
        let e = extents::up_to_and(m, c);
        let stage = Stage::Behind(e, o);
        Some(Script {
            stage: stage,
            layers: layers,
            depth: self.depth,
            margins: margins,
            deep: deep - 1,
        })
    }

    // Where a single condition is wanted.
    fn single(self, kind: usize, second: bool) -> Option<Script>
        requires { MarginRoom self }
        ensures { answer_of result ≡ tested_of (layers_in self) (step_wanting (which_visit second) a_single (margins_in self) kind) }
    {
        if extents::is_operand(kind, second) {
            let stage = Stage::Equals;
            return self.staged(stage);
        }
        if kind == 22 {
            return self.not();
        }
        if kind == 25 {
            return self.parenthesis();
        }
        None
    }

    // Where an = is wanted.
    fn equals(self, kind: usize, second: bool) -> Option<Script>
        ensures { answer_of result ≡ tested_of (layers_in self) (step_wanting (which_visit second) an_equals (margins_in self) kind) }
    {
        if kind == 33 {
            let stage = Stage::Other;
            return self.staged(stage);
        }
        None
    }

    // Where the other operand is wanted.
    fn other(self, kind: usize, second: bool) -> Option<Script>
        requires { MarginRoom self }
        ensures { answer_of result ≡ tested_of (layers_in self) (step_wanting (which_visit second) an_operand (margins_in self) kind) }
    {
        if extents::is_operand(kind, second) {
            let c = Extent {
                bytes: 5,
                nested: 0,
            };
            return self.got(c);
        }
        None
    }

    // A condition ends, with then behind it.
    fn branch(self, c: Extent) -> Option<Script>
        requires { LayerRoom self }
        ensures { answer_of result ≡ some (outlined (at reading.branching) (then_of (extent_of c) ∷ layers_in self)) }
    {
        let layer = Layer::Then(c);
        let branching = Place::Branching;
        let stage = Stage::At(branching);
        let n = self.depth;
        self.layered(n, layer, stage)
    }

    // Behind a single condition.
    fn behind(self, d: Extent, o: Option<Extent>, kind: usize) -> Option<Script>
        requires layer_room { LayerRoom self × MarginRoom self }
        requires deep_lt_most_margins { self.deep < most_margins }
        requires extent_under { ExtentUnder 1000 (extent_of d) × SideUnder 1000 (side_of o) }
        ensures { answer_of result ≡ step_tested (step_behind (extent_of d) (side_of o) (margins_in self) kind) (read_condition (behind (extent_of d) (side_of o) (margins_in self))) (layers_in self) kind }
    {
        let c = extents::pair_with(o, d);
        let deep = self.deep;
        let stage = Stage::Single;
        if kind == 20 {
            let margin = Margin {
                or_left: o,
                and_left: Some(d),
                nots: 0,
            };
            return self.margined(deep, margin, stage);
        }
        if kind == 21 {
            let margin = Margin {
                or_left: Some(c),
                and_left: None,
                nots: 0,
            };
            return self.margined(deep, margin, stage);
        }
        if kind == 26 {
            return self.got(c);
        }
        if kind == 16 {
            if deep == 0 {
                return self.branch(c);
            }
            return None;
        }
        None
    }

    // Where a sign or an operand of an assignment is wanted.
    fn assign(self, kind: usize) -> Option<Script>
        ensures { answer_of result ≡ cond (is_sign ASSIGNED kind) (some (outlined at_operand (layers_in self))) none }
    {
        if kind == 24 {
            let stage = Stage::Operand;
            return self.staged(stage);
        }
        None
    }

    fn assigned(self, kind: usize, second: bool) -> Option<Script>
        ensures { answer_of result ≡ cond (is_operand (which_visit second) kind) (some (outlined (past false (unnested 3)) (layers_in self))) none }
    {
        if extents::is_operand(kind, second) {
            return self.plain(false, 3);
        }
        None
    }

    // By the grammar alone.
    fn go(self, kind: usize, second: bool) -> Option<Script>
        requires { Standing self }
        ensures { answer_of result ≡ step_outline (which_visit second) (outline_of self) kind }
    {
        let stage = self.stage;
        match stage {
            Stage::At(place) => self.start(place, kind, second),
            Stage::Assign => self.assign(kind),
            Stage::Operand => self.assigned(kind, second),
            Stage::Item => self.item(kind),
            Stage::Single => self.single(kind, second),
            Stage::Equals => self.equals(kind, second),
            Stage::Other => self.other(kind, second),
            Stage::Behind(d, o) => self.behind(d, o, kind),
            Stage::Past(print, p) => self.follow(print, p, kind),
        }
    }

    // The condition that the shortest continuation of c makes, as an if.
    fn tested(self, c: Extent) -> Extent
        requires margin_room { MarginRoom self }
        requires extent_under { ExtentUnder 10000 (extent_of c) }
        ensures { (extent_of result ≡ branching (with_margins (margins_in self) (extent_of c)) vacant vacant) × ExtentUnder 300000 (extent_of result) }
    {
        let margins = self.margins;
        let deep = self.deep;
        let nothing = Extent {
            bytes: 0,
            nested: 0,
        };
        let e = extents::margin_all(margins, deep, c);
        extents::branch(e, nothing, nothing)
    }

    // What the shortest continuation puts at the place itself.
    fn kernel(self) -> Extent
        requires { ScriptFirm self }
        ensures { (extent_of result ≡ kernel (stage_of self.stage (margins_in self))) × ExtentUnder 300000 (extent_of result) }
    {
        let stage = self.stage;
        match stage {
            Stage::At(place) => place_kernel(place),
            Stage::Assign => plainly(3),
            Stage::Operand => plainly(3),
            Stage::Item => plainly(2),
            Stage::Single => {
                let c = plainly(5);
                self.tested(c)
            }
            Stage::Equals => {
                let c = plainly(5);
                self.tested(c)
            }
            Stage::Other => {
                let c = plainly(5);
                self.tested(c)
            }
            Stage::Behind(d, o) => {
                let c = extents::pair_with(o, d);
                self.tested(c)
            }
            Stage::Past(print, p) => p,
        }
    }

    // The bytes and the nesting of the shortest continuation.
    fn measure(self) -> Extent
        requires { ScriptFirm self }
        ensures { extent_of result ≡ wrapped_in (layers_in self) (kernel (stage_of self.stage (margins_in self))) }
    {
        let e = self.kernel();
        let layers = self.layers;
        let n = self.depth;
        extents::wrap_all(layers, n, e)
    }

    // How many bytes the shortest continuation has, with its closing 0.
    pub fn size(self) -> usize
        requires { Standing self }
        ensures { result ≡ suc (finished (outline_of self)).bytes }
    {
        let e = self.measure();
        1 + e.bytes
    }

    // The next token is of that kind.
    pub fn step(self, kind: usize, second: bool) -> Option<Script>
        requires { Standing self }
        ensures { Stepped (which_visit second) self kind result }
    {
        // What was answered is handed on as it is: it is large, and an Option made anew copies it once more.
        let t = self.go(kind, second);
        let Some(next) = t else {
            return None;
        };
        let e = next.measure();
        if 255 < e.bytes {
            return None;
        }
        if 8 < e.nested {
            return None;
        }
        t
    }

    // Whether no list lies around that in which p stands.
    fn outermost(self, p: Extent) -> bool
        requires layer_room { LayerRoom self }
        requires extent_under { ExtentUnder 1000 (extent_of p) }
        ensures { result ≡ none_outside (closed_list (layers_in self) (extent_of p)).outside }
    {
        let layers = self.layers;
        let n = self.depth;
        let closed = extents::close(layers, n, p);
        closed.left == 0
    }

    // Whether the program may end here.
    pub fn ends(self) -> bool
        requires { Standing self }
        ensures { result ≡ ends_here (outline_of self) }
    {
        let stage = self.stage;
        match stage {
            Stage::At(place) => match place {
                Place::Opening => {
                    let nothing = Extent {
                        bytes: 0,
                        nested: 0,
                    };
                    self.outermost(nothing)
                }
                Place::Separated => false,
                Place::Branching => false,
            },
            Stage::Assign => false,
            Stage::Operand => false,
            Stage::Item => false,
            Stage::Single => false,
            Stage::Equals => false,
            Stage::Other => false,
            Stage::Behind(d, o) => false,
            Stage::Past(print, p) => self.outermost(p),
        }
    }
}

fn plainly(bytes: usize) -> Extent
    requires { bytes ≤ 5 }
    ensures { (extent_of result ≡ unnested bytes) × ExtentUnder 1000 (extent_of result) }
{
    Extent {
        bytes: bytes,
        nested: 0,
    }
}

// Where a statement may begin: nothing, but a reject behind a ;.
fn place_kernel(place: Place) -> Extent
    ensures { (extent_of result ≡ kernel (at (reading_place place))) × ExtentUnder 1000 (extent_of result) }
{
    match place {
        Place::Opening => plainly(0),
        Place::Separated => plainly(1),
        Place::Branching => plainly(0),
    }
}
