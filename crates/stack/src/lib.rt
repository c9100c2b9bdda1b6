// The stack of open elements changed where it lies: push and pop by `&mut`, thin over those of a run.

#![tactic(auto)]

ghost use Rattle.std.specs.Prelude.{◌≡◌, false, cond, None, Some};
ghost use Rattle.stack.specs.Stacked.{StackedAs, UnstackedAs};

use live::Live;
use state::{Frame, State};

// A stack apart from the state: the live part, with the innermost element, and the frames of the elements around it as bytes.
#[derive(Clone, Copy)]
pub struct Stack {
    pub live: Live,
    pub bytes: [u8; State::STACK],
}

impl Stack {
    // A new innermost element; a 33rd is refused.
    pub fn push(self, f: Frame) -> Option<Stack>
        ensures { StackedAs self f result }
    {
        let live = self.live;
        if State::DEPTH <= live.depth {
            return None;
        }
        let mut bytes = self.bytes;
        let next = live.push(f, &mut bytes, 0);
        Some(Stack {
            live: next,
            bytes: bytes,
        })
    }

    // The innermost element off the stack; where it was the root, the root is closed.
    pub fn pop(self) -> Stack
        ensures { UnstackedAs self result }
    {
        let live = self.live;
        if State::DEPTH < live.depth {
            return self;
        }
        let bytes = self.bytes;
        let left = live.pop(&bytes, 0);
        Stack {
            live: left,
            bytes: bytes,
        }
    }
}

// The same where the stack lies.
pub fn push_on(s: &mut Stack, f: Frame) -> bool
    ensures stacked { StackedAs s.old f (cond result (Some s.new) None) }
    ensures refused_as_was { result ≡ false → s.new ≡ s.old }
{
    match s.push(f) {
        Some(stacked) => {
            *s = stacked;
            true
        }
        None => false,
    }
}

pub fn pop_off(s: &mut Stack)
    ensures { UnstackedAs s.old s.new }
{
    let p = s.pop();
    *s = p;
}
