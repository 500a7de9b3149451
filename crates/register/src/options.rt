// What the program was asked to do.
use std::env;

pub const USAGE: &str =
    "usage: register FILE [--check | --wkt]\n  FILE      a ground a line: 17: 120 400, 180 420, 150 470\n            or 17 POLYGON((120 400, 180 420, 150 470, 120 400)); what follows a # is passed over\n  --check   tells what is wrong in the file, and sums up\n  --wkt     writes the grounds as well-known text\n  --help    says this\nWithout --check or --wkt it reads the file, and then commands from standard input: help says which.\n";

// What is done once the file is read.
#[derive(Clone, Copy, Default, PartialEq, Eq)]
pub enum Mode {
    // Takes commands from standard input.
    #[default]
    Converse,
    Check,
    WellKnownText,
}

#[derive(Drop)]
pub struct Options {
    pub file: String,
    pub mode: Mode,
}

// What the words behind the program's name ask for.
#[derive(Drop)]
pub enum Asked {
    Help,
    Work(Options),
}

// One of these words.
#[derive(Clone, Copy)]
enum Word {
    File,
    Mode(Mode),
    Help,
    Unknown,
}

fn word_of(word: &str) -> Word {
    match word {
        "--check" => Word::Mode(Mode::Check),
        "--wkt" => Word::Mode(Mode::WellKnownText),
        "--help" | "-h" => Word::Help,
        _ if word.as_bytes().starts_with(b"-") => Word::Unknown,
        _ => Word::File,
    }
}

// One file, and at most one thing to do with it; nothing where the words are not understood.
pub(crate) fn read_options(rt: &HostRuntime) -> anyhow::Result<Option<Asked>> {
    let mut file = String::new(rt.alloc());
    let mut mode = Mode::default();
    for word in env::args(rt)?.skip(1) {
        match (word_of(word.as_str()), mode) {
            (Word::Help, _) => return Ok(Some(Asked::Help)),
            (Word::Mode(asked), Mode::Converse) => mode = asked,
            (Word::File, _) if file.is_empty() => file = word,
            _ => return Ok(None),
        }
    }
    if file.is_empty() {
        return Ok(None);
    }
    Ok(Some(Asked::Work(Options { file, mode })))
}
