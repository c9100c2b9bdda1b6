// Rows of the kinds of token that may come next, outside programs and in one. Only a kind that the place does not refuse by itself is tried: a try
// copies all that lies around.

#![tactic(auto)]

ghost use Rattle.std.specs.Prelude.{◌≡◌, ◌<◌};
ghost use Rattle.lexemes.specs.Kinds.{kinds};
ghost use Rattle.programs.specs.Parsed.{which_visit};
ghost use Rattle.sketches.specs.Moves.{move_of};
ghost use Rattle.paces.specs.Small.{tight, SmallPoint};
ghost use Rattle.drafts.specs.Drafted.{SoundDraft};
ghost use Rattle.scripts.specs.Scripts.{Standing};
ghost use Rattle.rows.specs.Rows.{is_move, could_start, could_be_operand, could_be_item, could_be, TextRow, OutlineRow};

// Whether a point does not refuse a kind by itself.
fn goes(point: sketches::Point, kind: usize) -> bool
    requires { (kind < kinds) × SmallPoint tight point }
    ensures { result ≡ is_move (move_of point kind) }
{
    let m = paces::moves::move_of(point, kind);
    match m {
        sketches::Move::Refused => false,
        sketches::Move::To(_) => true,
        sketches::Move::Opened(_) => true,
        sketches::Move::Closed(_) => true,
        sketches::Move::Emptied => true,
        sketches::Move::Next(_) => true,
    }
}

// The kinds that may come outside programs.
pub fn in_text(d: drafts::Draft) -> [bool; 35]
    requires { SoundDraft d }
    ensures { TextRow d result }
{
    let p = d.point;
    let mut may = [false; 35];
    for k in 0..35 {
        let mut ok = false;
        if goes(p, k) {
            ok = drafts::step(d, k).is_some();
        }
        may[k] = ok;
    }
    may
}

fn could_start(kind: usize) -> bool
    ensures { result ≡ could_start kind }
{
    (kind == 2)
        | ((kind == 3)
            | ((kind == 4)
                | ((kind == 11)
                    | ((kind == 12)
                        | ((kind == 13)
                            | ((kind == 14) | ((kind == 15) | ((kind == 18) | (kind == 19)))))))))
}

fn could_be_operand(kind: usize) -> bool
    ensures { result ≡ could_be_operand kind }
{
    (kind == 1) | ((kind == 2) | ((kind == 3) | (kind == 4)))
}

fn could_be_item(kind: usize) -> bool
    ensures { result ≡ could_be_item kind }
{
    (kind == 6) | ((kind == 7) | ((kind == 8) | (kind == 9)))
}

// Whether a stage of a program does not refuse a kind by itself.
fn could(stage: scripts::Stage, kind: usize) -> bool
    ensures { result ≡ could_be stage kind }
{
    match stage {
        scripts::Stage::At(_) => could_start(kind),
        scripts::Stage::Assign => kind == 24,
        scripts::Stage::Operand => could_be_operand(kind),
        scripts::Stage::Item => could_be_item(kind),
        scripts::Stage::Single => (kind == 22) | ((kind == 25) | could_be_operand(kind)),
        scripts::Stage::Equals => kind == 33,
        scripts::Stage::Other => could_be_operand(kind),
        scripts::Stage::Behind(_, _) => (kind == 16)
            | ((kind == 20) | ((kind == 21) | (kind == 26))),
        scripts::Stage::Past(_, _) => (kind == 17)
            | ((kind == 19) | ((kind == 32) | could_be_item(kind))),
    }
}

// The kinds that may come in a program of a visit, and the brace that ends it.
pub fn in_program(s: scripts::Script, second: bool) -> [bool; 35]
    requires { Standing s }
    ensures { OutlineRow (which_visit second) s result }
{
    let stage = s.stage;
    let mut may = [false; 35];
    for k in 0..35 {
        let mut ok = false;
        if could(stage, k) {
            ok = s.step(k, second).is_some();
        }
        may[k] = ok;
    }
    may[28] = s.ends();
    may
}
