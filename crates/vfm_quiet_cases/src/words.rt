//! The words of a line, one after the other.

use vfm_types::MigState;

/// The words of a line, and the place of the next one.
#[derive(Drop)]
pub(crate) struct Words<'a> {
    words: &'a [&'a str],
    place: usize,
}

impl<'a> Words<'a> {
    /// These words, from the first on.
    pub(crate) fn of(words: &'a [&'a str]) -> Words<'a> {
        Words { words, place: 0 }
    }

    /// The next word; an empty one where there is none.
    pub(crate) fn word(&mut self) -> &'a str {
        let place = self.place;
        if place >= self.words.len() {
            return "";
        }
        self.place = place + 1;
        self.words[place]
    }

    /// The next word as a number.
    pub(crate) fn number(&mut self) -> Option<u32> {
        self.word().parse::<u32>().ok()
    }

    /// The next word as a small number.
    pub(crate) fn small(&mut self) -> Option<u8> {
        self.word().parse::<u8>().ok()
    }

    /// The next word as a number, or nothing where it is a dash.
    pub(crate) fn number_or_dash(&mut self) -> Option<Option<u32>> {
        let word = self.word();
        if word == "-" {
            return Some(None);
        }
        word.parse::<u32>().ok().map(Some)
    }

    /// The next word as a state.
    pub(crate) fn state(&mut self) -> Option<MigState> {
        state_of(self.word())
    }

    /// The next word as a state, or nothing where it is a dash.
    pub(crate) fn state_or_dash(&mut self) -> Option<Option<MigState>> {
        let word = self.word();
        if word == "-" {
            return Some(None);
        }
        state_of(word).map(Some)
    }
}

// the state of this name
fn state_of(word: &str) -> Option<MigState> {
    match word {
        "ERROR" => Some(MigState::Error),
        "STOP" => Some(MigState::Stop),
        "RUNNING" => Some(MigState::Running),
        "STOP_COPY" => Some(MigState::StopCopy),
        "RESUMING" => Some(MigState::Resuming),
        "RUNNING_P2P" => Some(MigState::RunningP2p),
        "PRE_COPY" => Some(MigState::PreCopy),
        "PRE_COPY_P2P" => Some(MigState::PreCopyP2p),
        _ => None,
    }
}

/// Whether one of the names that stand in a word between commas is this one.
pub(crate) fn has_name(word: &str, name: &str) -> bool {
    word.split(',').any(|part| part == name)
}
