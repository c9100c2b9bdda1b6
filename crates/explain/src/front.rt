// What stands where no token starts: number 20.
use text::Decoded;
use words::say;
use wrong::byte;

// Where the bytes of a kind end that start at a byte.
fn past<F: Fn(u8) -> bool>(f: &[u8], from: usize, is_of_kind: F) -> usize
    requires { F.IsAlwaysCallable is_of_kind }
{
    for i in from..f.len() {
        if !is_of_kind(f[i]) {
            return i;
        }
    }
    from.max(f.len())
}

// A tag's name and white space, and then something else than its end.
fn say_of_tag(f: &[u8], from: usize) {
    let end = past(f, from, text::name_byte);
    let next = past(f, end, text::blank);
    if (end < next) & text::name_first(byte(f, next)) {
        say(b"It is a tag with an attribute, and tags here have none: take the attribute out.\n");
        return;
    }
    say(
        b"It is a tag with something in it that no tag has: a tag is <name>, </name> or <name/>, and a name has letters, digits, _ . and - alone. Mend the tag; if < is meant as text, write &lt;\n",
    );
}

// Behind <!
fn say_of_declaration(b: u8) {
    match b {
        b'-' => say(b"It is a comment, and schedules have none: take it out.\n"),
        b'[' => say(
            b"It is a CDATA section, and schedules have none: write its text as it is, with &amp; for & and &lt; for <\n",
        ),
        _ => say(b"It is a declaration, and schedules have none: take it out.\n"),
    }
}

// Behind <
fn say_of_angle(f: &[u8]) {
    let b = byte(f, 1);
    if b == b'!' {
        say_of_declaration(byte(f, 2));
        return;
    }
    if b == b'?' {
        say(
            b"It is an XML declaration or a processing instruction, and schedules have none: take it out.\n",
        );
        return;
    }
    if text::name_first(b) {
        say_of_tag(f, 1);
        return;
    }
    if (b == b'/') & text::name_first(byte(f, 2)) {
        say_of_tag(f, 2);
        return;
    }
    say(b"It is a < that starts no tag. If it is meant as text, write &lt;\n");
}

// Behind &
fn say_of_ampersand(f: &[u8]) {
    let b = byte(f, 1);
    if b == b'#' {
        say(
            b"It is a reference by a number that is no character's, or none that is written right: as &#65; or &#x41; for A. Mend the number, or write the character itself.\n",
        );
        return;
    }
    if text::name_first(b) {
        say(
            b"It is no reference that schedules have, which are &amp; &lt; &gt; &apos; &quot; and those by number, as &#160;. Write the character itself, or its number; if & is meant as text, write &amp;\n",
        );
        return;
    }
    say(b"It is a bare &. Write &amp;\n");
}

// A character that no text has, or none at all.
fn say_of_bytes(f: &[u8]) {
    let d = text::decode(f);
    match d {
        Decoded::Whole(_, _) => say(b"It is a bare >. Write &gt;\n"),
        Decoded::Begun => say(
            b"A character is cut off there: the file is damaged; fetch it again.\n",
        ),
        Decoded::Bad => say(
            b"It is no character in UTF-8: the file is damaged, or in another encoding. Fetch it again, or save it as UTF-8.\n",
        ),
    }
}

// What stands there, and what to do.
pub fn say_what_stands(f: &[u8]) {
    let b = byte(f, 0);
    if b == b'<' {
        say_of_angle(f);
        return;
    }
    if b == b'&' {
        say_of_ampersand(f);
        return;
    }
    if b < 32 {
        say(b"It is a control character, which no text has: take it out.\n");
        return;
    }
    say_of_bytes(f);
}
