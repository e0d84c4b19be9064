//! The words of the command line, and what each command reads.

ghost use Rattle.std.specs.Prelude.{◌≡◌, IfSome};
ghost use Rattle.sc_app.specs.Forms.{bytes_of, named, named_with, pivots_of, seed_of, letters_of, form, IsInRange};
ghost use Rattle.sc_app.specs.Reading.{reads, IsReadable};

use crate::limits::{DEFAULT_PIVOTS, MAX_CHAIN_BYTES, MAX_SEED, MAX_TEXT_BYTES};
use sc_random::limits::MAX_LETTERS;
use sc_text::limits::MAX_PIVOTS;
use sc_text::{in_range, number_of, within};

/// What the words of the command line ask for.
#[derive(Clone, Copy, Debug, PartialEq, Eq)]
pub enum Command {
    /// `surface`: reads a surface, or that of a certificate, and writes its counts.
    Surface,
    /// `shape`: reads a surface, or that of a certificate, and writes its components and their boundaries.
    Shape,
    /// `check`: reads a certificate and writes its value where the surface is least.
    Check,
    /// `svg`: reads a surface, that of a certificate, or a fan, and draws it.
    Svg,
    /// `scl`: reads a chain and writes its stable commutator length.
    Scl {
        /// The pivots that may be made, at least 1.
        pivots: u32,
    },
    /// `ball`: reads two chains and writes the unit ball between them.
    Ball {
        /// The pivots that may be made for each direction, at least 1.
        pivots: u32,
    },
    /// `gen`: reads nothing, and writes a summary of the solution for a chain that is drawn.
    Generate {
        /// What the letters are drawn by.
        seed: u64,
        /// The letters of a drawn word, from 1 to 8.
        letters: u32,
    },
}

/// What a command reads of its source.
#[derive(Clone, Copy, Debug, PartialEq, Eq)]
pub enum Reading {
    /// Nothing: the source isn't asked.
    Nothing,
    /// Its whole input, of at most so many bytes.
    AtMost(usize),
}

impl Command {
    /// What the command reads.
    pub fn reads(&self) -> Reading
        ensures table { result ≡ reads self.now }
        ensures readable { IsReadable result }
    {
        match self {
            Command::Surface | Command::Shape | Command::Check | Command::Svg => {
                Reading::AtMost(MAX_TEXT_BYTES)
            }
            Command::Scl { .. } | Command::Ball { .. } => Reading::AtMost(MAX_CHAIN_BYTES),
            Command::Generate { .. } => Reading::Nothing,
        }
    }
}

/// The command of one word.
fn command_named(word: &str) -> Option<Command>
    ensures form { result ≡ named word.now }
    ensures in_range { IfSome result IsInRange }
{
    match word {
        "surface" => Some(Command::Surface),
        "shape" => Some(Command::Shape),
        "check" => Some(Command::Check),
        "svg" => Some(Command::Svg),
        "scl" => Some(Command::Scl {
            pivots: DEFAULT_PIVOTS,
        }),
        "ball" => Some(Command::Ball {
            pivots: DEFAULT_PIVOTS,
        }),
        _ => None,
    }
}

/// The number of pivots that a word names: from 1 to the most, in its one spelling.
fn pivots_of(word: &str) -> Option<u32>
    ensures number { result ≡ pivots_of word.now }
    ensures in_range { IfSome result (λ n. IsInRange (Command.Scl n)) }
{
    match number_of(word.as_bytes()) {
        Ok(number) => in_range(number, 1, MAX_PIVOTS).ok(),
        Err(_) => None,
    }
}

/// The seed that a word names, in its one spelling.
fn seed_of(word: &str) -> Option<u64>
    ensures { result ≡ seed_of word.now }
{
    match number_of(word.as_bytes()) {
        Ok(number) => match within(number, 0, i128::from(MAX_SEED)) {
            Ok(seed) => Some(seed as u64),
            Err(_) => None,
        },
        Err(_) => None,
    }
}

/// The number of letters of a drawn word that a word names: from 1 to the most, in its one spelling.
fn letters_of(word: &str) -> Option<u32>
    ensures number { result ≡ letters_of word.now }
    ensures in_range { IfSome result (λ n. IsInRange (Command.Generate 0 n)) }
{
    match number_of(word.as_bytes()) {
        Ok(number) => in_range(number, 1, MAX_LETTERS).ok(),
        Err(_) => None,
    }
}

/// The command of a word and two others: an option and its number, or two numbers.
fn command_named_with(word: &str, option: &str, number: &str) -> Option<Command>
    ensures form { result ≡ named_with word.now option.now number.now }
    ensures in_range { IfSome result IsInRange }
{
    if word == "scl" && option == "--pivots" {
        let pivots = pivots_of(number)?;
        Some(Command::Scl { pivots })
    } else if word == "ball" && option == "--pivots" {
        let pivots = pivots_of(number)?;
        Some(Command::Ball { pivots })
    } else if word == "gen" {
        let seed = seed_of(option)?;
        let letters = letters_of(number)?;
        Some(Command::Generate { seed, letters })
    } else {
        None
    }
}

/// The command that the words, without the program's name, are the form of. `None` where they match no form.
pub fn command_of(words: &Vec<String>) -> Option<Command>
    ensures form { result ≡ form (bytes_of words.now.items) }
    ensures in_range { IfSome result IsInRange }
{
    match words.as_slice() {
        [word] => command_named(word.as_str()),
        [word, option, number] => {
            command_named_with(word.as_str(), option.as_str(), number.as_str())
        }
        _ => None,
    }
}
