// What is due once each open container is closed.
ghost use Rattle.std.specs.Prelude.{[], ◌∷◌, ◌≡◌, ◌≢◌, ◌<◌, length};
ghost use Rattle.event.specs.Format.{max_open};

use crate::turn::Due;
use event::limits::MAX_OPEN;
use std::marker::Model;

// The first `depth` are in use, the outermost first. A clause sees them as a list, the innermost first.
#[derive(Drop)]
pub(crate) struct Around {
    due: [Due; MAX_OPEN],
    depth: usize,
}

impl Model for Around {
    ghost use Rattle.std.specs.Prelude.{List, ◌≤◌};
    ghost use Rattle.event.specs.Format.{max_open};
    ghost use Rattle.grammar.specs.declared.turn.Due.{Due};
    ghost use Rattle.grammar.specs.Stack.{stack};

    ghost Value = { List Due };

    ghost view = { λ a. stack a.depth a.due };

    ghost invariant = { λ a. a.depth ≤ max_open };
}

impl Around {
    pub(crate) fn new() -> Around
        ensures { result ≡ [] }
    {
        Around {
            due: [Due::Nothing; MAX_OPEN],
            depth: 0,
        }
    }

    pub(crate) fn depth(&self) -> usize
        ensures { result ≡ length self.now }
    {
        self.depth
    }

    pub(crate) fn push(&mut self, due: Due)
        requires { length self.old < max_open }
        ensures { self.new ≡ due ∷ self.old }
    {
        self.due[self.depth] = due;
        self.depth += 1;
    }

    pub(crate) fn pop(&mut self) -> Due
        requires { length self.old ≢ 0 }
        ensures { self.old ≡ result ∷ self.new }
    {
        self.depth -= 1;
        self.due[self.depth]
    }
}
