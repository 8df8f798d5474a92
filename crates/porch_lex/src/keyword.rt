//! Keywords.

ghost use Rattle.std.specs.Prelude.{◌≡◌, ◌∷◌};
ghost use Rattle.std.specs.Str.{bytes_eq};
ghost use Rattle.porch_lex.specs.Lexemes.{keyword_of};
ghost use Rattle.porch_lex.specs.inside.Keywords.{keyword_by_letter, keyword_a, keyword_b, keyword_c, keyword_d, keyword_e, keyword_f, keyword_g, keyword_i, keyword_l, keyword_r, keyword_s, keyword_t, keyword_u, keyword_v, keyword_w};

use porch_tree::Keyword;

/// The keyword that a word is, by its first byte and the bytes that follow.
#[tactic(auto, using(crate::proofs::Keywords::by_letter))]
pub fn keyword_of(first: u8, rest: &[u8]) -> Option<Keyword>
    ensures { result ≡ keyword_of (first ∷ rest.now) }
{
    keyword_by_letter(first, rest)
}

fn keyword_by_letter(first: u8, rest: &[u8]) -> Option<Keyword>
    ensures { result ≡ keyword_by_letter first rest.now }
{
    match first {
        b'a' => keyword_a(rest),
        b'b' => keyword_b(rest),
        b'c' => keyword_c(rest),
        b'd' => keyword_d(rest),
        b'e' => keyword_e(rest),
        b'f' => keyword_f(rest),
        b'g' => keyword_g(rest),
        b'i' => keyword_i(rest),
        b'l' => keyword_l(rest),
        b'r' => keyword_r(rest),
        b's' => keyword_s(rest),
        b't' => keyword_t(rest),
        b'u' => keyword_u(rest),
        b'v' => keyword_v(rest),
        b'w' => keyword_w(rest),
        _ => None,
    }
}

fn reads(text: &[u8], word: &str) -> bool
    ensures { result ≡ bytes_eq text.now word.now }
{
    text == word.as_bytes()
}

fn keyword_a(rest: &[u8]) -> Option<Keyword>
    ensures { result ≡ keyword_a rest.now }
{
    if reads(rest, "uto") {
        Some(Keyword::Auto)
    } else {
        None
    }
}

fn keyword_b(rest: &[u8]) -> Option<Keyword>
    ensures { result ≡ keyword_b rest.now }
{
    if reads(rest, "reak") {
        Some(Keyword::Break)
    } else {
        None
    }
}

fn keyword_c(rest: &[u8]) -> Option<Keyword>
    ensures { result ≡ keyword_c rest.now }
{
    if reads(rest, "ase") {
        Some(Keyword::Case)
    } else if reads(rest, "har") {
        Some(Keyword::Char)
    } else if reads(rest, "onst") {
        Some(Keyword::Const)
    } else if reads(rest, "ontinue") {
        Some(Keyword::Continue)
    } else {
        None
    }
}

fn keyword_d(rest: &[u8]) -> Option<Keyword>
    ensures { result ≡ keyword_d rest.now }
{
    if reads(rest, "efault") {
        Some(Keyword::Default)
    } else if reads(rest, "o") {
        Some(Keyword::Do)
    } else if reads(rest, "ouble") {
        Some(Keyword::Double)
    } else {
        None
    }
}

fn keyword_e(rest: &[u8]) -> Option<Keyword>
    ensures { result ≡ keyword_e rest.now }
{
    if reads(rest, "lse") {
        Some(Keyword::Else)
    } else if reads(rest, "num") {
        Some(Keyword::Enum)
    } else if reads(rest, "xtern") {
        Some(Keyword::Extern)
    } else {
        None
    }
}

fn keyword_f(rest: &[u8]) -> Option<Keyword>
    ensures { result ≡ keyword_f rest.now }
{
    if reads(rest, "loat") {
        Some(Keyword::Float)
    } else if reads(rest, "or") {
        Some(Keyword::For)
    } else {
        None
    }
}

fn keyword_g(rest: &[u8]) -> Option<Keyword>
    ensures { result ≡ keyword_g rest.now }
{
    if reads(rest, "oto") {
        Some(Keyword::Goto)
    } else {
        None
    }
}

fn keyword_i(rest: &[u8]) -> Option<Keyword>
    ensures { result ≡ keyword_i rest.now }
{
    if reads(rest, "f") {
        Some(Keyword::If)
    } else if reads(rest, "nt") {
        Some(Keyword::Int)
    } else {
        None
    }
}

fn keyword_l(rest: &[u8]) -> Option<Keyword>
    ensures { result ≡ keyword_l rest.now }
{
    if reads(rest, "ong") {
        Some(Keyword::Long)
    } else {
        None
    }
}

fn keyword_r(rest: &[u8]) -> Option<Keyword>
    ensures { result ≡ keyword_r rest.now }
{
    if reads(rest, "egister") {
        Some(Keyword::Register)
    } else if reads(rest, "eturn") {
        Some(Keyword::Return)
    } else {
        None
    }
}

fn keyword_s(rest: &[u8]) -> Option<Keyword>
    ensures { result ≡ keyword_s rest.now }
{
    if reads(rest, "hort") {
        Some(Keyword::Short)
    } else if reads(rest, "igned") {
        Some(Keyword::Signed)
    } else if reads(rest, "izeof") {
        Some(Keyword::Sizeof)
    } else if reads(rest, "tatic") {
        Some(Keyword::Static)
    } else if reads(rest, "truct") {
        Some(Keyword::Struct)
    } else if reads(rest, "witch") {
        Some(Keyword::Switch)
    } else {
        None
    }
}

fn keyword_t(rest: &[u8]) -> Option<Keyword>
    ensures { result ≡ keyword_t rest.now }
{
    if reads(rest, "ypedef") {
        Some(Keyword::Typedef)
    } else {
        None
    }
}

fn keyword_u(rest: &[u8]) -> Option<Keyword>
    ensures { result ≡ keyword_u rest.now }
{
    if reads(rest, "nion") {
        Some(Keyword::Union)
    } else if reads(rest, "nsigned") {
        Some(Keyword::Unsigned)
    } else {
        None
    }
}

fn keyword_v(rest: &[u8]) -> Option<Keyword>
    ensures { result ≡ keyword_v rest.now }
{
    if reads(rest, "oid") {
        Some(Keyword::Void)
    } else if reads(rest, "olatile") {
        Some(Keyword::Volatile)
    } else {
        None
    }
}

fn keyword_w(rest: &[u8]) -> Option<Keyword>
    ensures { result ≡ keyword_w rest.now }
{
    if reads(rest, "hile") {
        Some(Keyword::While)
    } else {
        None
    }
}
