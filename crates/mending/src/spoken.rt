// The tokens of a rule text, kind by kind, as they are named to people.
use words::say;

// Those with a number, a name or characters.
fn say_varied(k: usize) {
    match k {
        0 => say(b"n0-n63"),
        1 => say(b"0-63"),
        2 => say(b"$.a0-$.a7"),
        3 => say(b"$[.a0-$[.a7"),
        4 => say(b"$].a0-$].a7"),
        5 => say(b"name"),
        6 => say(b"<name>"),
        7 => say(b"</name>"),
        8 => say(b"<name/>"),
        _ => say(b"\"text\""),
    }
}

fn say_word(k: usize) {
    match k {
        10 => say(b"CHAR"),
        11 => say(b"ECHO"),
        12 => say(b"ECHO_OFF"),
        13 => say(b"reject"),
        14 => say(b"print"),
        15 => say(b"if"),
        16 => say(b"then"),
        17 => say(b"else"),
        18 => say(b"begin"),
        19 => say(b"end"),
        20 => say(b"and"),
        21 => say(b"or"),
        _ => say(b"not"),
    }
}

fn say_sign(k: usize) {
    match k {
        23 => say(b"::="),
        24 => say(b":="),
        25 => say(b"("),
        26 => say(b")"),
        27 => say(b"{"),
        28 => say(b"}"),
        29 => say(b"."),
        30 => say(b"|"),
        31 => say(b"*"),
        32 => say(b";"),
        33 => say(b"="),
        _ => say(b"EMPTY"),
    }
}

// A token of a kind.
pub fn say_kind(k: usize) {
    if k < 10 {
        say_varied(k);
        return;
    }
    if k < 23 {
        say_word(k);
        return;
    }
    say_sign(k);
}
