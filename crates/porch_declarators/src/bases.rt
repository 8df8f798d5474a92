//! Bases without braces: kinds, void, typedef names and tags.

ghost use Rattle.std.specs.Prelude.{◌≡◌, if◌then◌else◌};
ghost use Rattle.std.specs.List.{list_any};
ghost use Rattle.porch_types.specs.declared.shapes.Kind.TheVariants as kind;
ghost use Rattle.porch_check.specs.Declarations.{is_char, is_long, is_short, is_unsigned, kind_of as kind_of_words};

use porch_tree::Keyword;
use porch_types::Kind;

/// The kind that words name, in any order.
pub fn kind_of(words: &[Keyword]) -> Kind
    ensures { result ≡ kind_of_words words.now }
{
    let unsigned = has_unsigned(words);
    named_kind(unsigned, has_char(words), has_short(words), has_long(words))
}

// The kind of words among which these are or aren't.
fn named_kind(unsigned: bool, char: bool, short: bool, long: bool) -> Kind
    ensures { result ≡ (if char then (if unsigned then kind.UChar else kind.Char)
        else if short then (if unsigned then kind.UShort else kind.Short)
        else if long then (if unsigned then kind.ULong else kind.Long)
        else if unsigned then kind.UInt
        else kind.Int) }
{
    if char {
        return if unsigned { Kind::UChar } else { Kind::Char };
    }
    if short {
        return if unsigned { Kind::UShort } else { Kind::Short };
    }
    if long {
        return if unsigned { Kind::ULong } else { Kind::Long };
    }
    if unsigned { Kind::UInt } else { Kind::Int }
}

fn has_unsigned(words: &[Keyword]) -> bool
    ensures { result ≡ list_any is_unsigned words.now }
{
    words.iter().any(|word| is_unsigned(*word))
}

fn has_char(words: &[Keyword]) -> bool
    ensures { result ≡ list_any is_char words.now }
{
    words.iter().any(|word| is_char(*word))
}

fn has_short(words: &[Keyword]) -> bool
    ensures { result ≡ list_any is_short words.now }
{
    words.iter().any(|word| is_short(*word))
}

fn has_long(words: &[Keyword]) -> bool
    ensures { result ≡ list_any is_long words.now }
{
    words.iter().any(|word| is_long(*word))
}

fn is_unsigned(word: Keyword) -> bool
    ensures { result ≡ is_unsigned word }
{
    matches!(word, Keyword::Unsigned)
}

fn is_char(word: Keyword) -> bool
    ensures { result ≡ is_char word }
{
    matches!(word, Keyword::Char)
}

fn is_short(word: Keyword) -> bool
    ensures { result ≡ is_short word }
{
    matches!(word, Keyword::Short)
}

fn is_long(word: Keyword) -> bool
    ensures { result ≡ is_long word }
{
    matches!(word, Keyword::Long)
}
