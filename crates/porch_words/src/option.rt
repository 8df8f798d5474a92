//! Options, as a word spells them.

ghost use Rattle.std.specs.Prelude.{◌≡◌};
ghost use Rattle.porch_words.specs.inside.Reading.{apart_by, joined_by, key_of_name, part_of, part_seen};

/// An option.
#[derive(Clone, Copy, Debug, PartialEq, Eq)]
pub(crate) enum Key {
    Layout,
    Every,
    Turns,
    Stack,
    Heap,
    Widths,
}

/// What a word is among the options.
#[derive(Clone, Copy)]
pub(crate) enum Part<'w> {
    /// An option with its value.
    Joined(Key, &'w str),
    /// An option, whose value is the next word.
    Apart(Key),
    /// No option.
    Neither,
}

/// What a word is among the options.
pub(crate) fn part_of(word: &str) -> Part<'_>
    ensures { part_seen result ≡ part_of word.now }
{
    match word.split_once('=') {
        Some((name, value)) => joined(key_of_name(name), value),
        None => apart(key_of_name(word)),
    }
}

fn joined(key: Option<Key>, value: &str) -> Part<'_>
    ensures { part_seen result ≡ joined_by key value.now }
{
    match key {
        Some(key) => Part::Joined(key, value),
        None => Part::Neither,
    }
}

fn apart<'w>(key: Option<Key>) -> Part<'w>
    ensures { part_seen result ≡ apart_by key }
{
    match key {
        Some(key) => Part::Apart(key),
        None => Part::Neither,
    }
}

/// The option of this name.
fn key_of_name(name: &str) -> Option<Key>
    ensures { result ≡ key_of_name name.now }
{
    match name {
        "--layout" => Some(Key::Layout),
        "--every" => Some(Key::Every),
        "--turns" => Some(Key::Turns),
        "--stack" => Some(Key::Stack),
        "--heap" => Some(Key::Heap),
        "--widths" => Some(Key::Widths),
        _ => None,
    }
}
