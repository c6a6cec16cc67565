//! The rule of a tray in words.
ghost use Rattle.firm_tray.specs.Reading.{TraysAreReadAloud};

/// The law on the states of a tray that its rule allows: both seats have the book for which it was opened; the
/// answering seat is open exactly when the word is 0, and the asking seat has taken the answer exactly when it is 2;
/// when it is 1, the slot holds the round of that book.
pub fn trays_are_read_aloud()
    ensures { TraysAreReadAloud }
{}
