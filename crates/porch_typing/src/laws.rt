//! What is found by typing is typed. The functions are laws, and have nothing to run.

ghost use Rattle.porch_typing.specs.Laws.{ExpressionsAreTyped, TextsBeginInOrder, DeclaratorsAreInOrder};

/// Each expression that breaks no rule has its type in the program that the text comes to.
pub fn expressions_are_typed()
    ensures { ExpressionsAreTyped }
{}

/// In front of a text types, names and tags are in order, as the other laws ask.
pub fn a_text_begins_in_order()
    ensures { TextsBeginInOrder }
{}

/// Behind bases, type names and declarators types, names and tags are in order, and what was found
/// is a known type.
pub fn declarators_are_in_order()
    ensures { DeclaratorsAreInOrder }
{}
