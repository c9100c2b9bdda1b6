// The bytes and the nesting of parts, put together; what lies around a place in a program; and what tokens of a kind can be.

#![tactic(auto)]

ghost use Rattle.std.specs.Prelude.{◌≡◌, ◌≤◌, ◌<◌};
ghost use Rattle.programs.specs.Parsed.{which_visit};
ghost use Rattle.outlines.specs.Extents.{paired, in_turn, branching};
ghost use Rattle.outlines.specs.Kinds.{is_target, is_operand, is_plain, is_short_item, is_long_item};
ghost use Rattle.outlines.specs.Conditions.{paired_with, up_to_and, with_margins};
ghost use Rattle.outlines.specs.Statements.{wrapped, wrapped_in};
ghost use Rattle.outlines.specs.Shape.{ExtentUnder, LayerUnder, LayersUnder, SideUnder, MarginUnder, MarginsUnder};
ghost use Rattle.extents.specs.Held.{ExtentIs, SmallExtent, extent_of, side_of, margin_of, layer_of, layers_at, margins_at, most_around, most_margins, is_among, ClosedIs};

use lexing::larger;

// How many bytes a part has, and how deep if, not, and, or nest in it.
#[derive(Clone, Copy)]
pub struct Extent {
    pub bytes: usize,
    pub nested: usize,
}

// What stands to the left within one pair of parentheses: of an or, of an and, and how many nots.
#[derive(Clone, Copy)]
pub struct Margin {
    pub or_left: Option<Extent>,
    pub and_left: Option<Extent>,
    pub nots: usize,
}

// A list with what stands before the place in it, or an if with the place in its first or its second branch.
#[derive(Clone, Copy)]
pub enum Layer {
    Among(Extent),
    Then(Extent),
    Else(Extent, Extent),
}

#[derive(Clone, Copy)]
pub struct Around {
    pub layer: Layer,
}

impl Around {
    // The layers of a program within its limits, and one more.
    pub const MOST: usize = 18;
}

impl Margin {
    // One for each pair of parentheses, and one around them.
    pub const MOST: usize = 33;
}

#[derive(Clone, Copy)]
pub struct Closed {
    pub whole: Extent,
    pub left: usize,
}

// Whether a kind is an attribute's that may be assigned.
pub fn is_target(kind: usize, second: bool) -> bool
    ensures { result ≡ is_target (which_visit second) kind }
{
    if kind == 2 {
        return true;
    }
    if kind == 3 {
        return !second;
    }
    if kind == 4 {
        return second;
    }
    false
}

// Whether a kind is a value's or an attribute's that may be read.
pub fn is_operand(kind: usize, second: bool) -> bool
    ensures { result ≡ is_operand (which_visit second) kind }
{
    if kind == 1 {
        return true;
    }
    if is_target(kind, second) {
        return true;
    }
    if kind == 3 {
        return second;
    }
    false
}

// Whether a kind is a statement by itself.
pub fn is_plain(kind: usize, second: bool) -> bool
    ensures { result ≡ is_plain (which_visit second) kind }
{
    if kind == 13 {
        return true;
    }
    if kind == 11 {
        return !second;
    }
    if kind == 12 {
        return !second;
    }
    false
}

pub fn is_short_item(kind: usize) -> bool
    ensures { result ≡ is_short_item kind }
{
    matches!(kind, 6 | 7)
}

pub fn is_long_item(kind: usize) -> bool
    ensures { result ≡ is_long_item kind }
{
    matches!(kind, 8 | 9)
}

// c and d, c or d.
pub fn pair(c: Extent, d: Extent) -> Extent
    requires small_extent { SmallExtent c }
    requires small_extent_2 { SmallExtent d }
    ensures { ExtentIs result (paired (extent_of c) (extent_of d)) }
{
    Extent {
        bytes: 1 + (c.bytes + d.bytes),
        nested: 1 + larger(c.nested, d.nested),
    }
}

// With what stands left of it, if anything does.
pub fn pair_with(o: Option<Extent>, d: Extent) -> Extent
    requires side_under { SideUnder 1000 (side_of o) }
    requires small_extent { SmallExtent d }
    ensures { ExtentIs result (paired_with (side_of o) (extent_of d)) }
{
    match o {
        None => d,
        Some(c) => pair(c, d),
    }
}

// A single condition behind what stands left of it, up to an and.
pub fn up_to_and(m: Margin, c: Extent) -> Extent
    requires margin_under { MarginUnder 1000 (margin_of m) }
    requires extent_under { ExtentUnder 200000 (extent_of c) }
    ensures { ExtentIs result (up_to_and (margin_of m) (extent_of c)) }
{
    let left = m.and_left;
    let e = Extent {
        bytes: m.nots + c.bytes,
        nested: m.nots + c.nested,
    };
    pair_with(left, e)
}

pub fn in_turn(p: Extent, q: Extent) -> Extent
    requires small_extent { SmallExtent p }
    requires small_extent_2 { SmallExtent q }
    ensures { ExtentIs result (in_turn (extent_of p) (extent_of q)) }
{
    Extent {
        bytes: p.bytes + q.bytes,
        nested: larger(p.nested, q.nested),
    }
}

// if c then p else q.
pub fn branch(c: Extent, p: Extent, q: Extent) -> Extent
    requires small_extent { SmallExtent c }
    requires small_extent_2 { SmallExtent p }
    requires small_extent_3 { SmallExtent q }
    ensures { ExtentIs result (branching (extent_of c) (extent_of p) (extent_of q)) }
{
    let inner = larger(p.nested, q.nested);
    Extent {
        bytes: 3 + (c.bytes + (p.bytes + q.bytes)),
        nested: 1 + larger(c.nested, inner),
    }
}

// What lies at the place within its layer.
pub fn wrap(l: Layer, p: Extent) -> Extent
    requires layer_under { LayerUnder 1000 (layer_of l) }
    requires small_extent { SmallExtent p }
    ensures { ExtentIs result (wrapped (layer_of l) (extent_of p)) }
{
    match l {
        Layer::Among(b) => in_turn(b, p),
        Layer::Then(c) => {
            let none = Extent {
                bytes: 0,
                nested: 0,
            };
            branch(c, p, none)
        }
        Layer::Else(c, q) => branch(c, q, p),
    }
}

// Within the first n layers.
pub fn wrap_all(layers: [Around; Around::MOST], n: usize, p: Extent) -> Extent
    requires n_le_most_around { n ≤ most_around }
    requires layers_under { LayersUnder 1000 (layers_at layers n) }
    requires extent_under { ExtentUnder 300000 (extent_of p) }
    ensures { extent_of result ≡ wrapped_in (layers_at layers n) (extent_of p) }
{
    let mut e = p;
    for i in (0..n).rev() {
        let a = layers[i];
        let l = a.layer;
        e = wrap(l, e);
    }
    e
}

pub fn is_list(l: Layer) -> bool
    ensures { result ≡ is_among (layer_of l) }
{
    matches!(l, Layer::Among(_))
}

// The list in which the place lies, and how many layers lie around that.
pub fn close(layers: [Around; Around::MOST], n: usize, p: Extent) -> Closed
    requires n_le_most_around { n ≤ most_around }
    requires layers_under { LayersUnder 1000 (layers_at layers n) }
    requires extent_under { ExtentUnder 300000 (extent_of p) }
    ensures { ClosedIs layers n (extent_of p) result }
{
    let mut e = p;
    for i in (0..n).rev() {
        let a = layers[i];
        let l = a.layer;
        e = wrap(l, e);
        if is_list(l) {
            return Closed { whole: e, left: i };
        }
    }
    Closed { whole: e, left: 0 }
}

// A condition within the first n margins.
pub fn margin_all(margins: [Margin; Margin::MOST], n: usize, c: Extent) -> Extent
    requires n_le_most_margins { n ≤ most_margins }
    requires margins_under { MarginsUnder 1000 (margins_at margins n) }
    requires extent_under { ExtentUnder 10000 (extent_of c) }
    ensures { (extent_of result ≡ with_margins (margins_at margins n) (extent_of c)) × ExtentUnder 200000 (extent_of result) }
{
    let mut e = c;
    for i in (0..n).rev() {
        let m = margins[i];
        let o = m.or_left;
        e = pair_with(o, up_to_and(m, e));
    }
    e
}
