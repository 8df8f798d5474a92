//! Programs that are worked out, which the check computes.

ghost use Rattle.porch_bytes.specs.Worked.{LeavesAreBytes, MemoryIsLaidOut, CallsReturn, PointersAreAddresses, AddressesTrap, BlocksAreTaken, LayoutsDiffer, TextsAreShown, NumbersArePrinted};

/// Bytes stand in the layout's order, negative numbers in two's complement.
pub fn leaves_are_bytes()
    ensures { LeavesAreBytes }
{}

/// Globals begin at address 16, the stack and its frames at multiples of 16.
pub fn memory_is_laid_out()
    ensures { MemoryIsLaidOut }
{}

/// A call's value comes back, and a frame may not fit.
pub fn calls_return()
    ensures { CallsReturn }
{}

/// A pointer is the address of what it points to, and is moved by bytes.
pub fn pointers_are_addresses()
    ensures { PointersAreAddresses }
{}

/// What lies outside the used memory, or isn't aligned, traps.
pub fn addresses_trap()
    ensures { AddressesTrap }
{}

/// A block has zero bytes, is ended by its address alone, and may find no place.
pub fn blocks_are_taken()
    ensures { BlocksAreTaken }
{}

/// Programs that meet an undefined act go on differently under different layouts.
pub fn layouts_differ()
    ensures { LayoutsDiffer }
{}

/// A text is shown up to a byte 0, and numbers as they are printed.
pub fn texts_are_shown()
    ensures { TextsAreShown }
{}

/// Numbers are shown in decimal and in hexadecimal.
pub fn numbers_are_printed()
    ensures { NumbersArePrinted }
{}
