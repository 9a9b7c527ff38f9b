// Which members of a container a walk over its events names, one at each step.
ghost use Rattle.std.specs.Prelude.{◌≡◌, ◌+◌, ◌^◌, ◌<◌};
ghost use Rattle.writer.specs.Members.{last_of, named_of};

// Of an array all; of a dictionary, in pairs of a key i and a value i + 1, its keys or its values.
#[derive(Clone, Copy)]
pub(crate) enum Members {
    All,
    Keys,
    Values,
}

impl Members {
    // The member that is named at the step from event i.
    pub(crate) fn named(self, i: usize) -> usize
        requires { i + named_of self < 2 ^ 64 }
        ensures { result ≡ i + named_of self }
    {
        match self {
            Members::All | Members::Keys => i,
            Members::Values => i + 1,
        }
    }

    // The last member of the step from event i: the next step begins behind it.
    pub(crate) fn last(self, i: usize) -> usize
        requires { i + last_of self < 2 ^ 64 }
        ensures { result ≡ i + last_of self }
    {
        match self {
            Members::All => i,
            Members::Keys | Members::Values => i + 1,
        }
    }
}
