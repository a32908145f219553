//! The forms of words.

ghost use Rattle.std.specs.Prelude.{◌≡◌, map, string_bytes};
ghost use Rattle.vfm_report.specs.Numbers.{long_number, number_of};
ghost use Rattle.vfm_top.specs.Causes.{load_of, pass_of};
ghost use Rattle.vfm_top.specs.Form.{same_text, state_named, flags_named, pass_named, form_of};
ghost use Rattle.vfm_top.specs.Form as spec;

use itoa::Buffer;
use vfm_types::{Flags, MigState};

/// What the words ask for.
#[derive(Debug, Drop)]
pub enum Form {
    /// `run FILE` or `run FILE abort N`: move the described machine. The source gives up once pass `abort_after` has ended; 0
    /// is never.
    Run {
        abort_after: u32,
    },
    /// `load N`: move the machine of generated load `number`.
    Load {
        number: u32,
    },
    /// `audit FILE REPORT`: audit the report of a run of the described machine.
    Audit,
    /// `paths FROM TO FLAGS`: print the path between two states.
    Paths {
        from: MigState,
        to: MigState,
        flags: Flags,
    },
}

/// Whether a word is this text.
fn is_word(word: &String, text: &[u8]) -> bool
    ensures { result ≡ same_text (string_bytes word.now) text.now }
{
    word.as_bytes() == text
}

/// The state of a name.
fn state(word: &String) -> Option<MigState>
    ensures { result ≡ state_named (string_bytes word.now) }
{
    if is_word(word, b"ERROR") {
        return Some(MigState::Error);
    }
    if is_word(word, b"STOP") {
        return Some(MigState::Stop);
    }
    if is_word(word, b"RUNNING") {
        return Some(MigState::Running);
    }
    if is_word(word, b"STOP_COPY") {
        return Some(MigState::StopCopy);
    }
    if is_word(word, b"RESUMING") {
        return Some(MigState::Resuming);
    }
    if is_word(word, b"RUNNING_P2P") {
        return Some(MigState::RunningP2p);
    }
    if is_word(word, b"PRE_COPY") {
        return Some(MigState::PreCopy);
    }
    if is_word(word, b"PRE_COPY_P2P") {
        return Some(MigState::PreCopyP2p);
    }
    None
}

/// The flags that a word writes.
fn flags(word: &String) -> Option<Flags>
    ensures { result ≡ flags_named (string_bytes word.now) }
{
    if is_word(word, b"1") {
        return Flags::of(1);
    }
    if is_word(word, b"3") {
        return Flags::of(3);
    }
    if is_word(word, b"5") {
        return Flags::of(5);
    }
    if is_word(word, b"7") {
        return Flags::of(7);
    }
    None
}

/// The form `run FILE`.
fn run(command: &String, file: &String) -> Option<Form>
    ensures { result ≡ spec.run_form (string_bytes command.now) (string_bytes file.now) }
{
    if !is_word(command, b"run") {
        return None;
    }
    if file.is_empty() {
        return None;
    }
    Some(Form::Run { abort_after: 0 })
}

/// The number of a pass that a word writes: one digit that isn't 0.
fn pass(word: &String) -> Option<u32>
    ensures { result ≡ pass_named (string_bytes word.now) }
{
    let digits = word.as_bytes();
    if digits.len() != 1 {
        return None;
    }
    match digits[0] {
        digit @ b'1'..=b'9' => Some(u32::from(digit - b'0')),
        _ => None,
    }
}

/// The form `run FILE abort N`.
fn run_abort(command: &String, file: &String, abort: &String, word: &String) -> Option<Form>
    ensures { result ≡ spec.abort_form (string_bytes command.now) (string_bytes file.now) (string_bytes abort.now) (string_bytes word.now) }
{
    if !is_word(command, b"run") {
        return None;
    }
    if file.is_empty() {
        return None;
    }
    if !is_word(abort, b"abort") {
        return None;
    }
    match pass(word) {
        Some(abort_after) => Some(Form::Run { abort_after }),
        None => None,
    }
}

/// The number of 64 bits that a word writes: decimal, without a sign or a leading zero.
fn long_number(word: &[u8]) -> Option<u64>
    ensures { result ≡ long_number word.now }
{
    let text = match str::from_utf8(word) {
        Ok(text) => text,
        Err(_) => return None,
    };
    let number = match text.parse::<u64>() {
        Ok(number) => number,
        Err(_) => return None,
    };
    let mut digits = Buffer::new();
    if digits.format(number).as_bytes() == word {
        Some(number)
    } else {
        None
    }
}

/// The number of 32 bits that a word writes.
fn number(word: &[u8]) -> Option<u32>
    ensures { result ≡ number_of word.now }
{
    let number = long_number(word)?;
    if number <= 0xffff_ffff {
        Some(number as u32)
    } else {
        None
    }
}

/// The form `load N`.
fn load(number_word: &String) -> Option<Form>
    ensures { result ≡ spec.load_form (string_bytes number_word.now) }
{
    match number(number_word.as_bytes()) {
        Some(number) => Some(Form::Load { number }),
        None => None,
    }
}

/// The form `load N` or `run FILE`.
fn two_words(command: &String, word: &String) -> Option<Form>
    ensures { result ≡ spec.two_words_form (string_bytes command.now) (string_bytes word.now) }
{
    if is_word(command, b"load") {
        load(word)
    } else {
        run(command, word)
    }
}

/// The form `audit FILE REPORT`.
fn audit(command: &String, file: &String, report: &String) -> Option<Form>
    ensures { result ≡ spec.audit_form (string_bytes command.now) (string_bytes file.now) (string_bytes report.now) }
{
    if !is_word(command, b"audit") {
        return None;
    }
    if file.is_empty() {
        return None;
    }
    if report.is_empty() {
        return None;
    }
    Some(Form::Audit)
}

/// The form `paths FROM TO FLAGS`.
fn paths(from: &String, to: &String, bits: &String) -> Option<Form>
    ensures { result ≡ spec.paths_form (state_named (string_bytes from.now)) (state_named (string_bytes to.now)) (flags_named (string_bytes bits.now)) }
{
    match (state(from), state(to), flags(bits)) {
        (Some(from), Some(to), Some(flags)) => Some(Form::Paths { from, to, flags }),
        _ => None,
    }
}

/// The form of the words, or `None` exactly where they have none.
pub fn read_words(words: &[String]) -> Option<Form>
    ensures { result ≡ form_of (map string_bytes words.now) }
{
    if words.len() == 2 {
        return two_words(&words[0], &words[1]);
    }
    if words.len() == 3 {
        return audit(&words[0], &words[1], &words[2]);
    }
    if words.len() == 4 {
        return if is_word(&words[0], b"paths") {
            paths(&words[1], &words[2], &words[3])
        } else {
            run_abort(&words[0], &words[1], &words[2], &words[3])
        };
    }
    None
}

/// The pass after whose end the source is to give up: 0 is never, also for words that ask for no move.
pub fn abort_after(words: &[String]) -> u32
    ensures { result ≡ pass_of (form_of (map string_bytes words.now)) }
{
    match read_words(words) {
        Some(Form::Run { abort_after }) => abort_after,
        _ => 0,
    }
}

/// The number of the load that the words ask for, if they do.
pub fn load_number(words: &[String]) -> Option<u32>
    ensures { result ≡ load_of (form_of (map string_bytes words.now)) }
{
    match read_words(words) {
        Some(Form::Load { number }) => Some(number),
        _ => None,
    }
}
