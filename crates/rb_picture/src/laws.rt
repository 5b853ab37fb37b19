//! What holds of every picture. Each law is the contract of a function that does nothing.
ghost use Rattle.rb_picture.specs.Laws.{IsWellFormed, OneCellEach, RowsAreImplied};
ghost use Rattle.rb_picture.specs.Sheets.{IsSmall};

/// A picture in panels has one cell for each delivery of its lines, in order, and no other cells.
pub fn one_cell_each()
    ensures { OneCellEach }
{}

/// The text of a picture is one element, in which all others nest and close and all text is
/// escaped.
pub fn a_picture_is_well_formed()
    ensures { IsWellFormed }
{}

/// An overview of up to 4,800 frames and 320 slots is no wider than 2,000 pixels and no higher than
/// 4,000.
pub fn an_overview_is_small()
    ensures { IsSmall }
{}

/// A breach in the first slot of a frame, because the good nodes of a kind are no majority, adds no
/// row for a node that the bus does not have.
pub fn rows_are_implied()
    ensures { RowsAreImplied }
{}
