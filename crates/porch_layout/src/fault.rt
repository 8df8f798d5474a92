//! Why a layouts file gives no layout.

ghost use Rattle.std.specs.Prelude.{◌≡◌};
ghost use Rattle.porch_layout.specs.Words.{key_name, rule_name};

use thiserror::Error;

/// What a refusal of a layouts file speaks of: the file, the name asked for, a key that no layout
/// has, or one of the eight keys of a layout.
#[derive(Clone, Copy, Debug, PartialEq, Eq)]
pub enum LayoutKey {
    File,
    Name,
    Other,
    Order,
    Long,
    Pointer,
    AlignShort,
    AlignInt,
    AlignLong,
    AlignPointer,
    LeastStruct,
}

impl LayoutKey {
    /// The word for it, as it stands in a layouts file and in messages.
    pub fn name(self) -> &'static str
        ensures { result.now ≡ key_name self }
    {
        match self {
            LayoutKey::File => "file",
            LayoutKey::Name => "name",
            LayoutKey::Other => "other",
            LayoutKey::Order => "order",
            LayoutKey::Long => "long",
            LayoutKey::Pointer => "pointer",
            LayoutKey::AlignShort => "align_short",
            LayoutKey::AlignInt => "align_int",
            LayoutKey::AlignLong => "align_long",
            LayoutKey::AlignPointer => "align_pointer",
            LayoutKey::LeastStruct => "least_struct",
        }
    }
}

/// The rule of layouts files that was broken.
#[derive(Clone, Copy, Debug, PartialEq, Eq)]
pub enum LayoutRule {
    /// The text has more than 65,536 bytes.
    TooLong,
    /// The text isn't UTF-8, or no TOML.
    NotToml,
    /// Nothing has the name asked for.
    NoName,
    /// What has the name isn't a table.
    NotTable,
    /// The table has a key that no layout has.
    UnknownKey,
    /// The table lacks a key.
    MissingKey,
    /// A key's value isn't one that it may have.
    BadValue,
}

impl LayoutRule {
    /// The word for it in messages.
    pub fn name(self) -> &'static str
        ensures { result.now ≡ rule_name self }
    {
        match self {
            LayoutRule::TooLong => "TooLong",
            LayoutRule::NotToml => "NotToml",
            LayoutRule::NoName => "NoName",
            LayoutRule::NotTable => "NotTable",
            LayoutRule::UnknownKey => "UnknownKey",
            LayoutRule::MissingKey => "MissingKey",
            LayoutRule::BadValue => "BadValue",
        }
    }
}

/// Why a layouts file gave no layout.
#[derive(Clone, Copy, Debug, PartialEq, Eq, Error)]
pub enum LayoutFault {
    /// The file breaks this rule at this key.
    #[error("bad layout {} {}", .rule.name(), .key.name())]
    BadLayout { key: LayoutKey, rule: LayoutRule },
    /// Memory ran out.
    #[error("out of memory")]
    NoMemory,
}
