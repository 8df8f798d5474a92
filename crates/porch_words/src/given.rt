//! What options gave.

ghost use Rattle.std.specs.Prelude.{◌≡◌};
ghost use Rattle.std.specs.Option.{option_map};
ghost use Rattle.porch_words.specs.declared.option.Key.TheVariants.{Layout};
ghost use Rattle.porch_words.specs.Orders.{both, is_new, layout_in, limits_in, or_else, order_seen, order_with, with_setting};
ghost use Rattle.porch_words.specs.inside.Reading.{given_seen, put, setting_of};

use crate::command::{Command, has_option};
use crate::option::Key;
use crate::order::Order;
use crate::value::{both_widths, is_layout_name, number_of, widths_of};
use porch_session::Limits;
use porch_session::limits::{LEAST_HEAP, LEAST_STACK, MOST_HEAP, MOST_STACK, MOST_TURNS};
use porch_values::Widths;

/// The layout of a run where none is named.
pub(crate) const DEFAULT_LAYOUT: &str = "le64";

/// The least turns between two checkpoints where none are named.
pub(crate) const DEFAULT_EVERY: u64 = 1;

/// The turns of a run where none are named.
pub(crate) const DEFAULT_TURNS: u64 = 1_000_000_000;

/// The bytes of the stack where none are named.
pub(crate) const DEFAULT_STACK: u64 = 1_048_576;

/// The bytes of the heap where none are named.
pub(crate) const DEFAULT_HEAP: u64 = 8_388_608;

/// What options gave.
#[derive(Clone, Copy)]
pub(crate) struct Given<'w> {
    pub(crate) layout: Option<&'w str>,
    pub(crate) every: Option<u64>,
    pub(crate) turns: Option<u64>,
    pub(crate) stack: Option<u64>,
    pub(crate) heap: Option<u64>,
    pub(crate) widths: Option<Widths>,
}

/// Where no option is given.
pub(crate) const NOTHING: Given<'static> = Given {
    layout: None,
    every: None,
    turns: None,
    stack: None,
    heap: None,
    widths: None,
};

/// What is given with an option more, where the command has it and it wasn't given.
pub(crate) fn put<'w>(
    command: Command,
    given: Given<'w>,
    key: Key,
    value: &'w str,
) -> Option<Given<'w>>
    ensures { option_map given_seen result ≡ put command (given_seen given.entry) key value.now }
{
    if has_option(command, key) && is_new(&given, key) {
        with_value(given, key, value)
    } else {
        None
    }
}

fn is_new(given: &Given<'_>, key: Key) -> bool
    ensures { result ≡ is_new (given_seen given.now) key }
{
    match key {
        Key::Layout => given.layout.is_none(),
        Key::Every => given.every.is_none(),
        Key::Turns => given.turns.is_none(),
        Key::Stack => given.stack.is_none(),
        Key::Heap => given.heap.is_none(),
        Key::Widths => given.widths.is_none(),
    }
}

fn with_value<'w>(given: Given<'w>, key: Key, value: &'w str) -> Option<Given<'w>>
    ensures { option_map given_seen result
        ≡ option_map (with_setting (given_seen given.entry)) (setting_of key value.now) }
{
    match key {
        Key::Layout => with_layout(given, value),
        Key::Every => Some(Given {
            every: Some(number_of(value, 1, MOST_TURNS)?),
            ..given
        }),
        Key::Turns => Some(Given {
            turns: Some(number_of(value, 1, MOST_TURNS)?),
            ..given
        }),
        Key::Stack => Some(Given {
            stack: Some(number_of(value, LEAST_STACK, MOST_STACK)?),
            ..given
        }),
        Key::Heap => Some(Given {
            heap: Some(number_of(value, LEAST_HEAP, MOST_HEAP)?),
            ..given
        }),
        Key::Widths => Some(Given {
            widths: Some(widths_of(value)?),
            ..given
        }),
    }
}

fn with_layout<'w>(given: Given<'w>, value: &'w str) -> Option<Given<'w>>
    ensures { option_map given_seen result
        ≡ option_map (with_setting (given_seen given.entry)) (setting_of Layout value.now) }
{
    if is_layout_name(value) {
        Some(Given {
            layout: Some(value),
            ..given
        })
    } else {
        None
    }
}

/// What a command orders with what its options gave.
pub(crate) fn order_with<'w>(command: Command, given: &Given<'w>) -> Order<'w>
    ensures { order_seen result ≡ order_with command (given_seen given.now) }
{
    match command {
        Command::Exec => Order::Exec {
            layout: layout_in(given),
            limits: limits_in(given),
        },
        Command::Compile => Order::Compile,
        Command::Start => Order::Start {
            layout: layout_in(given),
            limits: limits_in(given),
        },
        Command::Resume => Order::Resume {
            layout: layout_in(given),
            limits: limits_in(given),
        },
        Command::Clear => Order::Clear,
        Command::Vet => Order::Vet {
            widths: widths_in(given),
            turns: or_else(given.turns, DEFAULT_TURNS),
        },
        Command::Show => Order::Show,
    }
}

fn layout_in<'w>(given: &Given<'w>) -> &'w str
    ensures { result.now ≡ layout_in (given_seen given.now) }
{
    match given.layout {
        Some(name) => name,
        None => DEFAULT_LAYOUT,
    }
}

fn limits_in(given: &Given<'_>) -> Limits
    ensures { result ≡ limits_in (given_seen given.now) }
{
    Limits {
        every: or_else(given.every, DEFAULT_EVERY),
        turns: or_else(given.turns, DEFAULT_TURNS),
        stack: or_else(given.stack, DEFAULT_STACK),
        heap: or_else(given.heap, DEFAULT_HEAP),
    }
}

fn widths_in(given: &Given<'_>) -> Widths
    ensures { result ≡ or_else given.now.widths both }
{
    match given.widths {
        Some(widths) => widths,
        None => both_widths(),
    }
}

fn or_else(given: Option<u64>, default: u64) -> u64
    ensures { result ≡ or_else given default }
{
    match given {
        Some(number) => number,
        None => default,
    }
}
