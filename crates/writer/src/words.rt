// The events and the lent words: columns of one word for each event.
ghost use Rattle.std.specs.Prelude.{◌≡◌, ◌^◌, ◌<◌, ◌≤◌, length, slice_index, slice_set};
ghost use Rattle.writer.specs.Columns.{cleared};
ghost use Rattle.writer.specs.Place.{place_of};
ghost use Rattle.writer.specs.Ready.{Ready};
ghost use Rattle.writer.specs.ReadyOnce.{ready_prop};

#[derive(Clone, Copy)]
pub(crate) enum Column {
    // Where an event stands on the tape.
    Off,
    // Of a scalar the first event with the same bytes, of a container itself.
    Rep,
    // The event behind it: the next one of a scalar, the one behind its end of a container; of an end 0.
    Next,
    // Of a container how many members it has; of a scalar that is its own REP the units of a text that isn't ASCII, else 0.
    Len,
    // Of an event that is its own REP the object's number plus 1; 0 is none yet.
    Num,
    // Of an object, by its number, where it begins in the file; 0 is nowhere yet.
    At,
}

// The events of a tape that is one whole root. They travel through all passes together with the words.
// Kept: the words, eight for each event, are a parameter of their own. In this struct, as &mut, they would be held by one pass alone, and each
// would have to promise that they are still the same words.
#[derive(Clone, Copy)]
pub(crate) struct Events<'a> {
    pub(crate) tape: &'a [u8],
    pub(crate) n: usize,
    ghost ready: { Ready tape.now n } by { ready_prop tape.now n },
}

impl<'a> Events<'a> {
    // The word of event e in a column.
    pub(crate) fn word(self, work: &[u32], column: Column, e: usize) -> usize
        requires { place_of self.n column e < length work.now }
        ensures { (result ≡ slice_index work.now (place_of self.entry.n column e)) × (result < 2 ^ 32) }
    {
        read(work, place(self.n, column, e))
    }

    pub(crate) fn set_word(self, work: &mut [u32], column: Column, e: usize, value: usize)
        requires { (place_of self.n column e < length work.old) × (value < 2 ^ 32) }
        ensures { work.new ≡ slice_set work.old (place_of self.entry.n column e) value }
    {
        write(work, place(self.n, column, e), value)
    }
}

// Which word that of event e is, where there are n events.
fn place(n: usize, column: Column, e: usize) -> usize
    requires { place_of n column e < 2 ^ 64 }
    ensures { result ≡ place_of n column e }
{
    match column {
        Column::Off => e,
        Column::Rep => n + e,
        Column::Next => n + n + e,
        Column::Len => n * 3 + e,
        Column::Num => n * 4 + e,
        Column::At => n * 5 + e,
    }
}

// A word, as an index.
pub(crate) fn read(work: &[u32], i: usize) -> usize
    requires { i < length work.now }
    ensures { (result ≡ slice_index work.now i) × (result < 2 ^ 32) }
{
    work[i] as usize
}

pub(crate) fn write(work: &mut [u32], i: usize, value: usize)
    requires { (i < length work.old) × (value < 2 ^ 32) }
    ensures { work.new ≡ slice_set work.old i value }
{
    work[i] = value as u32;
}

pub(crate) fn clear(work: &mut [u32], from: usize, to: usize)
    requires { (from ≤ to) × (to ≤ length work.old) }
    ensures { work.new ≡ cleared work.old from to }
{
    work[from..to].fill(0);
}
