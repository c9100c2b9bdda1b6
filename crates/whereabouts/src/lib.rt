// Where in a sheet's expressions something stands, in words: a production, a place, a part; where a schedule stands, and whose program rejected.

#![tactic(auto)]

mod opened;
mod parts;
mod rejected;

use layout::layout_of;
pub use parts::{node_of, say_atom_at, say_part, say_place, say_production};

// Says which elements are open, by the numbers of their productions from the outside in, on which lines they began, and at which place the innermost stands, in a
// schedule of a sheet that is well-formed; of any other sheet it says nothing.
pub fn say_open(sheet: &[u8], productions: &[u8], lines: &[u64], place: usize) {
    if sheet::defect(sheet) > 0 {
        return;
    }
    let l = layout_of(sheet);
    opened::say_around(sheet, l, productions, lines, place);
}

// Says which program of a sheet that is well-formed rejected a token: that of a production's node, counted from 1 in preorder, and with 0 the production's own; the second
// visit's where it is `again`. Of any other sheet, and of a production that it has not, it says nothing.
pub fn say_rejected(sheet: &[u8], production: usize, node: usize, again: bool) {
    if sheet::defect(sheet) > 0 {
        return;
    }
    let l = layout_of(sheet);
    if production < l.productions {
        rejected::say_program(sheet, l, production, node, again);
    }
}
