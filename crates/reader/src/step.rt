// One call of a reader: the next event, the end, or a refusal.
ghost use Rattle.std.specs.Prelude.{◌≡◌, ◌≤◌, length};
ghost use Rattle.layout.specs.Layout.{look_of};
ghost use Rattle.layout.specs.Trailer.{trailer_in};
ghost use Rattle.reader.specs.Machine.{step, origin, event_at, refused, refuse, arrive};
ghost use Rattle.reader.specs.Next.{laid_out, begin as begin_said, next_of};
ghost use Rattle.reader.specs.Said.{number_of, values_of, said, step_said};
ghost use Rattle.reader.specs.State.{max_length};

use crate::answer::{Answer, Record, Stepped};
use crate::refusal::Refusal;
use crate::state::{Reader, is_open};
use event::Event;
use layout::frame::Frame;
use layout::layout::{Due, Layout, due_at};
use layout::lookup::{Look, look_up, start_of};
use layout::refusal::Refusal as FileRefusal;
use layout::trailer::{TrailerRead, trailer_of};
use number::width::{bytes_in, width_of};

// A refusal that ends the reader.
#[tactic(auto, unfolding(crate::proofs::Rules::answers))]
fn ended(refusal: Refusal, place: u64) -> Stepped
    ensures { step_said result ≡ refuse (number_of refusal) (values_of refusal) place }
{
    Stepped {
        reader: Reader::ENDED,
        answer: Answer::Refused(refusal, place),
    }
}

// An event that is handed out.
#[tactic(auto, unfolding(crate::proofs::Rules::answers))]
fn handed(event: Event, number: u32, offset: u64) -> Answer
    ensures { said result ≡ event_at event (origin number offset) }
{
    Answer::Handed(Record {
        event,
        number,
        offset,
    })
}

impl Reader {
    // The next event, the end, or a refusal; and the state to call with next. The state changes here alone, and in place: a hand-over to
    // another function would copy it whole.
    pub fn next(mut self, file: &[u8]) -> Stepped
        ensures { step_said result ≡ next_of file.now self }
    {
        if self.fresh {
            return self.begin(file);
        }
        let depth = self.depth;
        if depth == 0 {
            return Stepped {
                reader: self,
                answer: Answer::Ended,
            };
        }
        if Reader::MAX_LENGTH < file.len() {
            return self.kept(Refusal::File(FileRefusal::TooLong), 0);
        }
        if self.length as usize != file.len() {
            return self.kept(Refusal::WrongFile, 0);
        }
        if Reader::MAX_OPEN < depth {
            return self.kept(Refusal::WrongFile, 0);
        }
        let Some(offsets) = width_of(self.offsets) else {
            return self.kept(Refusal::WrongFile, 0);
        };
        let Some(refs) = width_of(self.refs) else {
            return self.kept(Refusal::WrongFile, 0);
        };
        let layout = Layout {
            offsets,
            refs,
            count: self.count,
            table: self.table,
        };
        let top = depth - 1;
        match due_at(file, layout, self.frames[top]) {
            Due::Wrong => {
                return self.kept(Refusal::WrongFile, 0);
            }
            Due::Close(offset) => {
                let number = self.frames[top].object;
                if top == 0 {
                    return Stepped {
                        reader: Reader::ENDED,
                        answer: handed(Event::EndCollection, number, offset),
                    };
                }
                self.frames[top] = Frame::NONE;
                self.depth = top;
                return Stepped {
                    reader: self,
                    answer: handed(Event::EndCollection, number, offset),
                };
            }
            Due::Member(object) => match look_up(file, layout, object, self.place) {
                Look::Missing => {
                    return self.kept(Refusal::WrongFile, 0);
                }
                Look::Refused(refusal, place) => {
                    return ended(Refusal::File(refusal), place);
                }
                Look::Scalar(event, _, offset) => {
                    self.frames[top].position += 1;
                    self.place = offset;
                    return Stepped {
                        reader: self,
                        answer: handed(event, object as u32, offset),
                    };
                }
                Look::Container(shape, length, offset) => {
                    let number = object as u32;
                    if is_open(self.frames, depth, number) {
                        return ended(Refusal::RecursiveObject, offset);
                    }
                    if Reader::MAX_OPEN <= depth {
                        return ended(Refusal::TooDeep, offset);
                    }
                    self.frames[top].position += 1;
                    self.frames[depth] = Frame {
                        object: number,
                        position: 0,
                        length: length as u32,
                        offset: offset as u32,
                    };
                    self.depth = depth + 1;
                    self.place = offset;
                    return Stepped {
                        reader: self,
                        answer: handed(start_of(shape, length), number, offset),
                    };
                }
            },
        }
    }

    // A refusal that leaves the state as it is.
    #[tactic(auto, unfolding(crate::proofs::Rules::answers))]
    fn kept(self, refusal: Refusal, place: u64) -> Stepped
        ensures { step_said result ≡ step self (refused (number_of refusal) (values_of refusal) place) }
    {
        Stepped {
            reader: self,
            answer: Answer::Refused(refusal, place),
        }
    }

    // The first call: the trailer, then the root.
    #[tactic(auto, using(layout::proofs::Short::laid_short), unfolding(crate::proofs::Rules::answers, crate::specs::Next::begin))]
    fn begin(self, file: &[u8]) -> Stepped
        ensures { step_said result ≡ begin_said file.now self (trailer_in file.now) }
    {
        match trailer_of(file) {
            TrailerRead::Keeps(refusal, place) => self.kept(Refusal::File(refusal), place),
            TrailerRead::Ends(refusal, place) => ended(Refusal::File(refusal), place),
            TrailerRead::Lays(layout, root) => at_root(file, layout, root),
        }
    }
}

// The root: refused, handed out, or entered. A root that is a scalar ends the reader.
fn at_root(file: &[u8], layout: Layout, root: u64) -> Stepped
    requires { length file.now ≤ max_length }
    ensures { step_said result ≡ arrive (laid_out file.now layout) root (look_of file.now layout root) }
{
    match look_up(file, layout, root, layout.table as u64) {
        Look::Missing => laid_out(file, layout).kept(Refusal::WrongFile, 0),
        Look::Refused(refusal, place) => ended(Refusal::File(refusal), place),
        Look::Scalar(event, _, offset) => Stepped {
            reader: Reader::ENDED,
            answer: handed(event, root as u32, offset),
        },
        Look::Container(shape, length, offset) => {
            let mut reader = laid_out(file, layout);
            reader.frames[0] = Frame {
                object: root as u32,
                position: 0,
                length: length as u32,
                offset: offset as u32,
            };
            reader.depth = 1;
            reader.place = offset;
            Stepped {
                reader,
                answer: handed(start_of(shape, length), root as u32, offset),
            }
        }
    }
}

// A reader that has read a trailer and opened nothing.
#[tactic(auto, using(number::specs::WidthLaws::bytes_in_le), unfolding(crate::specs::Next::laid_out))]
fn laid_out(file: &[u8], layout: Layout) -> Reader
    requires { length file.now ≤ max_length }
    ensures { result ≡ laid_out file.now layout }
{
    let offsets = layout.offsets;
    let refs = layout.refs;
    Reader {
        fresh: false,
        length: file.len() as u32,
        offsets: bytes_in(offsets) as u8,
        refs: bytes_in(refs) as u8,
        count: layout.count,
        table: layout.table,
        place: layout.table as u64,
        depth: 0,
        frames: [Frame::NONE; Reader::MAX_OPEN],
    }
}
