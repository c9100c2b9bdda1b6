// The numbers of the table, in plain words.
use crate::speech::{STDOUT_FILENO, say, say_number, tell};

// What a number says of a sheet, and what to do next.
fn say_of_sheet(number: usize) {
    match number {
        0 => say(b"The sheet passes: each schedule can be read in one way only."),
        1 => say(
            b"This is no whole sheet: a sheet has 24 to 27928 bytes. The file is cut off, or is something else; fetch or write it again.",
        ),
        2 => say(
            b"The last 24 bytes, which say where the parts of the sheet lie, do not fit the file. It is cut off, or its parts do not lie back to back; write it again.",
        ),
        3 => say(
            b"A tag is wrong, in the tag records at the start of the file: its length, its name, the zeros after it, or two tags are alike. Mend that tag's 16 bytes.",
        ),
        4 => say(
            b"A production is wrong, in the production records after the tags: its nonterminal, its tag number, its run of nodes or its zeros; or the start is over 63. Mend that production's 12 bytes, or the start.",
        ),
        5 => say(
            b"An expression is wrong, in the node records after the productions: a node's kind or argument, or a run that is not one whole tree, at most 12 deep. Mend the nodes of that production.",
        ),
        6 => say(
            b"A program is wrong, in the programs after the nodes, or a field of a production or a node names no program of its visit, or a print reaches outside the strings. Mend that program or field.",
        ),
        7 => say(
            b"The start, or a nonterminal that an expression names, has no production. Add a production of it, or name another nonterminal.",
        ),
        8 => say(
            b"Some productions of one nonterminal share a tag. Mend every place listed; the list has all faults of the sheet, of this sort and of number 9.",
        ),
        9 => say(
            b"At some places the same input could be read in two ways. Mend every place listed; the list has all of them.",
        ),
        _ => say(
            b"The sheet has faults, but the list lent for them is too short. Lend four bytes for each fault; 65536 always suffice.",
        ),
    }
}

// What a number says of a token of a schedule, and what to do next.
fn say_of_token(number: usize) {
    match number {
        20 => say(
            b"What stands there is no tag and no text: a bare & or < or >, bytes that are no UTF-8, a control character, a reference by a number that is no character's, or markup that schedules do not have (tag attributes, comments, declarations, CDATA). Take it out, or write it as text: & is &amp; and < is &lt; and > is &gt;",
        ),
        21 => say(
            b"A tag or a reference is longer than 32 bytes, white space and zeros counted. Look for a > or a ; that is missing, or shorten it.",
        ),
        22 => say(
            b"An end tag is not that of the innermost open element. Close that element first, or take this end tag out.",
        ),
        23 => say(
            b"The sheet does not allow this here. Take it out, put it where it may stand, or put in what has to come before it.",
        ),
        24 => say(
            b"This would be the 33rd open element, and at most 32 can be open. Look for end tags that are missing further up.",
        ),
        25 => say(
            b"A program of the sheet rejects this. It is spelled as the sheet asks, but the sheet's author ruled it out here; ask what the rule is, and mend the schedule or the sheet.",
        ),
        _ => say(
            b"The schedule goes on after its end: something other than white space follows the root's end tag. Take it out, or the end tag that came too early.",
        ),
    }
}

// What a number says of a whole call, and what to do next.
fn say_of_call(number: usize) {
    match number {
        16 => say(
            b"The part is used up, or only a begun token is left of it, and more is to come. Hand over the bytes that were not taken, and the next part behind them.",
        ),
        17 => say(
            b"The next token's output is longer than the room left. Write out what there is and lend the room again; if nothing was written, lend more.",
        ),
        27 => say(
            b"The schedule ends too early: inside a tag or a character, or before its root is closed. The file is cut off; fetch it whole and convert it again.",
        ),
        28 => say(
            b"The schedule had already come to its end. Begin the next one with a fresh state.",
        ),
        29 => say(
            b"The state does not fit the sheet: it is damaged, another sheet's, or not of a state's length. Begin again with a fresh state.",
        ),
        _ => say(b"The count of visits would pass 2 to the 62nd. Begin again with a fresh state."),
    }
}

// What a number says of rules typed as text, or of a sheet printed as such, and what to do next.
fn say_of_rules(number: usize) {
    match number {
        34 => say(
            b"The sheet is not of the shape that can be salvaged: its start needs one production, which holds any number of one record, with a tag that nothing else has. Convert without --salvage, or write the rules so.",
        ),
        40 => say(
            b"No rule goes on like this. Everything before it is right so far; mend it here.",
        ),
        41 => say(
            b"The rules are right, but what they mention has no room in a sheet: at most 64 different tags, 16384 bytes of different programs and 8192 bytes of different strings. The first that is too many ends here; leave it out, shorten it, or use one again that stands above.",
        ),
        42 => say(
            b"The sheet has no text: the different strings that its programs print have over 8192 bytes together. Let them print fewer or shorter strings.",
        ),
        _ => say(
            b"The memory lent is shorter than what is to be written. Lend as many bytes as the count says.",
        ),
    }
}

// What a number says of declarations of a DTD, and what to do next.
pub fn tell_of_declarations(fd: i32, number: usize) {
    match number {
        50 => tell(
            fd,
            b"An element is declared as ANY, and rules must say what each element holds. Write what it may hold in place of ANY: EMPTY, (#PCDATA) for text, (#PCDATA|a|b)* for text with elements a and b in it, or a model of elements as (a,b?,c*).",
        ),
        51 => tell(
            fd,
            b"An entity, which is not read here. Put what it stands for in its place (of %name; or &name;), and leave its declaration out.",
        ),
        52 => tell(
            fd,
            b"An attribute list, which is not read here: schedules have no attributes. Leave it out, from <!ATTLIST to its >.",
        ),
        53 => tell(
            fd,
            b"This makes the model larger than the 32 nodes that a rule may have. A name is one node, and so is each , and |; ? adds two, * adds one, and + adds two and all of what it stands behind once more. Leave out marks that say the same twice (((a)+)+ is (a+)). If it is still too large, let it hold more than it says: (a|b|c)* takes any row of a, b and c, with room for 16 names in groups, as ((a|b|c)|(d|e|f))*; or give a part of the model to an element of its own, which the schedules must then have.",
        ),
        54 => tell(
            fd,
            b"This makes the model deeper than the 12 levels that a rule may have, or opens more than 32 parentheses at once. Each , or | of a row puts all that stands before it one level deeper, and so does each mark, a + by two: put parts of a long row in parentheses, as ((a,b,c),(d,e,f)) for (a,b,c,d,e,f), and leave out parentheses around one name and marks over marks. In mixed content there are no groups: name at most 10 elements there, and add the others in the rules. If it is still too deep, give a part of the model to an element of its own, which the schedules must then have.",
        ),
        55 => tell(
            fd,
            b"No element declaration goes on like this. Everything before it is right so far; mend it here. Read are <!ELEMENT name content> one after the other and nothing else: no comments, no <?xml?> and no <!DOCTYPE, and a name has at most 15 bytes, of A to Z, a to z, 0 to 9, _ . - and not 0 to 9, . or - first.",
        ),
        _ => tell(
            fd,
            b"The declarations are right, but more than one set of rules can hold: at most 64 declarations, 64 different names and 256 nodes together (53 says what is a node). The first that is too many ends here. Leave out the declarations of elements that the schedules do not have, and their names from the other declarations.",
        ),
    }
}

// What a number of the table means, and what to do next.
pub fn say_meaning(number: usize) {
    match number {
        0..=10 => say_of_sheet(number),
        20..=26 => say_of_token(number),
        34..=43 => say_of_rules(number),
        50..=56 => tell_of_declarations(STDOUT_FILENO, number),
        _ => say_of_call(number),
    }
}

// Whether the table has the number.
fn is_number(n: usize) -> bool {
    match n {
        0..=10 | 16 | 17 | 20..=30 | 34 | 40..=43 | 50..=56 => true,
        _ => false,
    }
}

// A number with its words. 0 is also what a schedule that was converted is answered with.
fn say_row(n: usize) {
    say(b"\n");
    say_number(n);
    say(b": ");
    say_meaning(n);
    if n == 0 {
        say(b" Or: the whole schedule was converted, and the listing is in place.");
    }
    say(b"\n");
}

// Every number with its words.
pub fn table() {
    for n in 0..57 {
        if is_number(n) {
            say_row(n);
        }
    }
}
