// What the program says of itself: how it is used, what its commands and numbers mean, which version it is.

#![tactic(auto)]

use words::{STDERR_FILENO, say};

// The command was not understood: a number that the paper's table has not.
const USAGE: u64 = 101;

pub fn complain(text: &[u8]) {
    io::write_all(STDERR_FILENO, text);
}

pub fn usage() -> u64 {
    complain(
        b"usage: wickpollen check RULES                       say whether the rules pass, and every place to mend\n",
    );
    complain(
        b"       wickpollen write RULES SHEET                 write rules that pass as a rule sheet, and put it in place\n",
    );
    complain(b"       wickpollen print SHEET                       print a rule sheet as text\n");
    complain(
        b"       wickpollen models DTD                        print a partner's element declarations as rules\n",
    );
    complain(
        b"       wickpollen try RULES SCHEDULE                say what convert would say, and write nothing\n",
    );
    complain(
        b"       wickpollen convert RULES SCHEDULE LISTING    convert the schedule by the rules, and put the listing in place\n",
    );
    complain(
        b"       wickpollen convert --salvage RULES SCHEDULE LISTING    the same, without the records that are damaged\n",
    );
    complain(
        b"       wickpollen help                              say what the commands and the numbers mean (--help does too)\n",
    );
    complain(b"       wickpollen --version                         say which version this is\n");
    USAGE
}

fn help_rules() {
    say(
        b"RULES is a file with rules as text, or a rule sheet: a file that holds a byte 0 is a sheet.\n",
    );
    say(b"wickpollen check RULES\n");
    say(b"    Checks the rules, and says whether they pass or which places to mend.\n");
    say(b"wickpollen write RULES SHEET\n");
    say(
        b"    Writes the rules as a rule sheet into the file SHEET, if they pass; else says what check says, and SHEET is as it was.\n",
    );
    say(b"wickpollen print SHEET\n");
    say(
        b"    Prints the rule sheet in the file SHEET as text, and nothing else; what is refused is told on standard error.\n",
    );
}

fn help_models() {
    say(b"wickpollen models DTD\n");
    say(
        b"    Prints the element declarations (<!ELEMENT ..>) in the file DTD as rules, and nothing else; what is refused is told on standard error. The\n",
    );
    say(
        b"    first element that is declared is the root: the first word of the rules names it. The rules say what each element may hold, and keep\n",
    );
    say(b"    nothing yet: add {ECHO} and the other statements.\n");
}

fn help_salvage() {
    say(b"wickpollen convert --salvage RULES SCHEDULE LISTING [--progress]\n");
    say(
        b"    The same, but a record that is damaged is dropped, and reading goes on at the next start tag of a record or end tag of the root that is\n",
    );
    say(
        b"    written without white space. What was dropped is told: its lines, why, and its title or its first words. What stands between two\n",
    );
    say(
        b"    records is not dropped, and a schedule that is cut off is refused. The start of RULES must hold any number of one sort of record.\n",
    );
}

fn help_commands() {
    help_rules();
    help_models();
    say(b"wickpollen try RULES SCHEDULE [--progress]\n");
    say(
        b"    Says what convert would say of the same rules and schedule, with the same number, and writes nothing.\n",
    );
    say(b"wickpollen convert RULES SCHEDULE LISTING [--progress]\n");
    say(
        b"    Converts the file SCHEDULE by the rules into the file LISTING. The listing is written to a new file beside it, LISTING and a\n",
    );
    say(
        b"    dot and six letters, which takes its name only when the whole schedule was taken: after any other end LISTING is as it was. LISTING\n",
    );
    say(
        b"    must be a plain file or no file yet, and neither RULES nor SCHEDULE. How far it is, is said on standard error at every 8 MB if that\n",
    );
    say(b"    is a terminal, or with --progress; else nothing is said before the end.\n");
    help_salvage();
    say(b"wickpollen help\n");
    say(b"    Says this, as --help does.\n");
    say(b"wickpollen --version\n");
    say(b"    Says which version this is.\n\n");
}

pub fn help() -> u64 {
    help_commands();
    say(b"The exit status is the number of the answer:\n");
    words::table();
    say(b"\n101: The command was not understood. See how it is used above.\n");
    say(
        b"\n102: A file could not be read or written, or LISTING is nothing to write to; the message says which and why. Mend that, and give the command again.\n",
    );
    say(
        b"\n103: The listing is in place, but some programmes of the schedule were damaged and are not in it; the message says which. Serve it, and fetch or mend the schedule.\n",
    );
    say(
        b"\n104: The program ended without an answer: it was killed, or had too little memory. Give the command again.\n",
    );
    say(
        b"\n129, 130, 131, 143: The command was stopped by a signal (128 and the signal's number). LISTING is whole: the old one, or the new one if that was just put in place.\n",
    );
    0
}

pub fn version() -> u64 {
    say(b"wickpollen 1.0.0\n");
    0
}
