//! The words of the command line.
ghost use Rattle.std.specs.Prelude.{◌≡◌, if◌then◌else◌, Some, None, codes, option_map};
ghost use Rattle.std.specs.Str.{bytes_eq};
ghost use Rattle.seg_generate.specs.Seeds.{seed_named};
ghost use Rattle.seg_tool.specs.Words.{command_of, of_one, of_two};

use seg_generate::seed_named;

/// How much is printed of a segment: in a summary one line, in full its columns and length ids too.
#[derive(Clone, Copy, Debug, PartialEq, Eq)]
pub enum Detail {
    Summary,
    Brief,
    Full,
}

/// A job of the program.
#[derive(Clone, Copy, Debug, PartialEq, Eq)]
pub enum Command {
    /// Writes the indexes of a script, and prints them.
    Build(Detail),
    /// Writes the indexes of the input that a number generates, and prints a summary of them.
    Generate(u32),
    /// Merges the segments of the work index into an output index of one segment, and prints it.
    Merge,
    /// Prints the segments of the work index in full.
    Show,
}

/// The job that words ask for, compared byte by byte.
pub(crate) fn command_of(words: &[String]) -> Option<Command>
    ensures { result ≡ command_of words.now }
{
    match words {
        [word] => of_one(word.as_str()),
        [first, second] => of_two(first.as_str(), second.as_str()),
        _ => None,
    }
}

/// The job of one word.
fn of_one(word: &str) -> Option<Command>
    ensures { result ≡ of_one word.now }
{
    if word == "build" {
        return Some(Command::Build(Detail::Brief));
    }
    if word == "merge" {
        return Some(Command::Merge);
    }
    if word == "show" {
        return Some(Command::Show);
    }
    None
}

/// The job of two words.
fn of_two(first: &str, second: &str) -> Option<Command>
    ensures { result ≡ of_two first.now second.now }
{
    if first == "build" {
        return full_build(second);
    }
    if first == "generate" {
        return generation(second);
    }
    None
}

/// The job of the word after `build`.
fn full_build(word: &str) -> Option<Command>
    ensures { result ≡ (if bytes_eq word.now (codes "--full") then Some (Command.Build Detail.Full) else None) }
{
    if word != "--full" {
        return None;
    }
    Some(Command::Build(Detail::Full))
}

/// The job of the word after `generate`.
fn generation(word: &str) -> Option<Command>
    ensures { result ≡ option_map (λ seed. Command.Generate seed) (seed_named word.now) }
{
    match seed_named(word) {
        Some(seed) => Some(Command::Generate(seed)),
        None => None,
    }
}
