//! Steps of `run` rows that choose how the repository is used.

use crate::values::mode_in;
use gix::Settings;

/// Whether the step is one of these, and then what it chooses holds.
pub fn choose(settings: &mut Settings, step: &[Vec<u8>]) -> bool {
    match step {
        [word] => choose_names(settings, word),
        [word, mode] => choose_logs(settings, word, mode),
        _ => false,
    }
}

fn choose_names(settings: &mut Settings, word: &[u8]) -> bool {
    let is_windows = word == b"windows".as_slice();
    settings.protect.windows |= is_windows;
    is_windows
}

fn choose_logs(settings: &mut Settings, word: &[u8], mode: &[u8]) -> bool {
    if word != b"logs".as_slice() {
        return false;
    }
    match mode_in(mode) {
        Ok(mode) => {
            settings.log_mode = mode;
            true
        }
        Err(_) => false,
    }
}
