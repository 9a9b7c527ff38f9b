// A tape built call by call, the builder in lent words.
ghost use Rattle.std.specs.Prelude.{◌≡◌, length, drop};
ghost use Rattle.builder.specs.Build.{answer_said};
ghost use Rattle.builder.specs.Finish.{finished_said};
ghost use Rattle.exports_build.specs.Build.{begin_code, begun_words, numbers_by, call_of, called_words, called_tape, words_by, Handed};
ghost use Rattle.exports_build.specs.Build.{written_numbers, finish_call, finished_output, finished_used};
ghost use Rattle.exports.specs.TapeAppend.{meaning_for};

use builder::answer::BuildError;
use builder::build;
use builder::finish::{FinishError, finish};
use builder::state::Builder;
use builder::words::{WORDS, load, store};
use exports::numbers::Numbers;
use exports::tape_append::event_for;
use exports::write::written_numbers;

// The words become an empty builder: 0, or 252 where they are too few.
#[unsafe(no_mangle)]
pub extern "C" fn zm_build_begin(builder: &mut [u32]) -> u32
    ensures value { result ≡ begin_code builder.old }
    ensures builder_after { builder.new ≡ begun_words builder.old }
{
    if builder.len() < WORDS {
        return 252;
    }
    store(builder, Builder::empty());
    0
}

// The event of a kind and a number, as zm_tape_append takes them, behind what the builder holds. Answers 0 and how many bytes are held in
// `place`; or a refusal's number and its place; 252 where the words are too few, then 251 where there is no such event.
#[unsafe(no_mangle)]
pub extern "C" fn zm_build(
    builder: &mut [u32],
    tape: &mut [u8],
    kind: u32,
    value: u64,
    bytes: &[u8],
    place: &mut u64,
    expected: &mut u32,
    found: &mut u32,
) -> u32
    ensures value { result ≡ (numbers_by (call_of builder.old (length tape.old) (meaning_for kind value bytes.now))).code }
    ensures place_after { place.new ≡ (numbers_by (call_of builder.old (length tape.old) (meaning_for kind value bytes.now))).place }
    ensures expected_after { expected.new ≡ (numbers_by (call_of builder.old (length tape.old) (meaning_for kind value bytes.now))).expected }
    ensures found_after { found.new ≡ (numbers_by (call_of builder.old (length tape.old) (meaning_for kind value bytes.now))).found }
    ensures builder_after { builder.new ≡ called_words builder.old (length tape.old) (meaning_for kind value bytes.now) }
    ensures tape_after { tape.new ≡ called_tape builder.old tape.old (meaning_for kind value bytes.now) }
    ensures handed { Handed tape.old (meaning_for kind value bytes.now) }
{
    let numbers = called(builder, tape, kind, value, bytes);
    *place = numbers.place;
    *expected = numbers.expected;
    *found = numbers.found;
    numbers.code
}

fn called(builder: &mut [u32], tape: &mut [u8], kind: u32, value: u64, bytes: &[u8]) -> Numbers
    ensures value { result ≡ numbers_by (call_of builder.old (length tape.old) (meaning_for kind value bytes.now)) }
    ensures builder_after { builder.new ≡ called_words builder.old (length tape.old) (meaning_for kind value bytes.now) }
    ensures tape_after { tape.new ≡ called_tape builder.old tape.old (meaning_for kind value bytes.now) }
{
    if builder.len() < WORDS {
        return Numbers::plain(252, 0);
    }
    let Some(event) = event_for(kind, value) else {
        return Numbers::plain(251, 0);
    };
    let mut state = load(builder);
    let answer = build::value(&mut state, tape, event, bytes);
    keep(builder, state, answer);
    answered(answer)
}

#[tactic(auto, unfolding(crate::specs::Computed::answered))]
fn answered(answer: Result<usize, BuildError>) -> Numbers
    ensures { result ≡ numbers_by (answer_said answer) }
{
    match answer {
        Ok(n) => Numbers::plain(0, n as u64),
        Err(BuildError::Refused(refusal, place)) => Numbers::refused(refusal, place),
        Err(BuildError::NoRoom(place)) => Numbers::plain(27, place),
        Err(BuildError::TapeShrank) => Numbers::plain(32, 0),
    }
}

// The words behind a call: those of the builder where the event was taken, else as they were.
#[tactic(auto, unfolding(crate::specs::Build::words_by, builder::specs::Build::answer_said))]
fn keep(words: &mut [u32], state: Builder, answer: Result<usize, BuildError>)
    ensures { words.new ≡ words_by (answer_said answer) words.old state }
{
    match answer {
        Ok(_) => store(words, state),
        Err(BuildError::Refused(_, _)) => {}
        Err(BuildError::NoRoom(_)) => {}
        Err(BuildError::TapeShrank) => {}
    }
}

// The file of what is held: answers as zm_write does, and 252 where the words are too few, 32 where the tape is shorter than what is held.
#[unsafe(no_mangle)]
pub extern "C" fn zm_build_finish(
    builder: &[u32],
    tape: &[u8],
    work: &mut [u32],
    out: &mut [u8],
    value: &mut u64,
    expected: &mut u32,
    found: &mut u32,
) -> u32
    ensures value { result ≡ (written_numbers (finish_call builder.now tape.now (length work.old) (length out.old))).code }
    ensures value_after { value.new ≡ (written_numbers (finish_call builder.now tape.now (length work.old) (length out.old))).place }
    ensures expected_after { expected.new ≡ (written_numbers (finish_call builder.now tape.now (length work.old) (length out.old))).expected }
    ensures found_after { found.new ≡ (written_numbers (finish_call builder.now tape.now (length work.old) (length out.old))).found }
    ensures out_after { out.new ≡ finished_output builder.now tape.now (length work.old) out.old }
    ensures work_unchanged { drop (finished_used builder.now tape.now (length work.old)) work.new
        ≡ drop (finished_used builder.now tape.now (length work.old)) work.old }
{
    let numbers = finished(builder, tape, work, out);
    *value = numbers.place;
    *expected = numbers.expected;
    *found = numbers.found;
    numbers.code
}

fn finished(builder: &[u32], tape: &[u8], work: &mut [u32], out: &mut [u8]) -> Numbers
    ensures value { result ≡ written_numbers (finish_call builder.now tape.now (length work.old) (length out.old)) }
    ensures out_after { out.new ≡ finished_output builder.now tape.now (length work.old) out.old }
    ensures work_unchanged { drop (finished_used builder.now tape.now (length work.old)) work.new
        ≡ drop (finished_used builder.now tape.now (length work.old)) work.old }
{
    if builder.len() < WORDS {
        return Numbers::plain(252, 0);
    }
    file_numbers(finish(load(builder), tape, work, out))
}

fn file_numbers(finished: Result<usize, FinishError>) -> Numbers
    ensures { result ≡ written_numbers (finished_said finished) }
{
    match finished {
        Ok(length) => written_numbers(Ok(length)),
        Err(FinishError::Writer(error)) => written_numbers(Err(error)),
        Err(FinishError::TapeShrank) => Numbers::plain(32, 0),
    }
}
