// Who started a conversion: whether somebody watches its progress, and the process that listens at the descriptor for what it comes to, if any does.

#![tactic(auto)]

ghost use Rattle.std.specs.Prelude.{◌≡◌, true, false};
ghost use Rattle.callers.specs.Callers.{nobody, Somebody, Unheard};

use std::os::unix::process::parent_id;

#[derive(Clone, Copy)]
pub struct Caller {
    pub watches: bool,
    pub listener: Option<i32>,
}

// The process that started this one.
fn parent(rt: HostRuntime) -> i32 {
    parent_id(rt.process()).cast_signed()
}

// Where whoever started the program listens. A line there names the new file before anything is written to it, so that it can be taken
// away if the program is stopped; the last line is the number.
const LISTENER: i32 = 3;

impl Caller {
    // Nobody listens.
    pub fn nobody() -> Caller
        ensures { result ≡ nobody }
    {
        Caller {
            watches: false,
            listener: None,
        }
    }

    // Whoever started the program.
    pub fn this_one(rt: HostRuntime, watches: bool, listens: bool) -> Caller
        ensures { Somebody watches listens result }
    {
        Caller {
            watches: watches,
            listener: if listens { Some(parent(rt)) } else { None },
        }
    }

    // Whether somebody listened and is no more: then nobody would know that a listing is put in place, perhaps over a newer one.
    pub fn is_gone(self, rt: HostRuntime) -> bool
        ensures { Unheard self false result }
    {
        match self.listener {
            Some(listener) => parent(rt) != listener,
            None => false,
        }
    }

    // Names the new file. Answers whether whoever listens could be told.
    pub fn hears_of(self, name: &[u8]) -> bool
        ensures { Unheard self true result }
    {
        if self.listener.is_none() {
            return true;
        }
        io::write_all(LISTENER, b"new ")
            & io::write_all(LISTENER, name)
            & io::write_all(LISTENER, b"\n")
    }

    // The last line.
    pub fn hears_number(self, number: u64) {
        if self.listener.is_some() {
            io::write_all(LISTENER, b"wickpollen: ");
            io::print_decimal(LISTENER, number);
            io::write_all(LISTENER, b"\n");
        }
    }
}
