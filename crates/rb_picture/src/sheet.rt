//! How a report is shown.
ghost use Rattle.std.specs.Prelude.{◌≡◌};
ghost use Rattle.rb_picture.specs.Sheets.{sheet_height, sheet_of, sheet_width, view_of};

use crate::extent::{Extent, extent_of};
use crate::form::Frames;
use crate::line::Line;
use crate::overview::{overview_height, overview_width};
use crate::places::{picture_height, picture_width};

/// How frames are drawn.
#[derive(Clone, Copy)]
pub enum View {
    /// Each in a panel with its nodes and its words.
    Panels,
    /// Each in a row with a cell for each slot.
    Overview,
}

/// How frames are drawn, and what there has to be room for.
#[derive(Clone, Copy)]
pub struct Sheet {
    pub view: View,
    pub extent: Extent,
}

fn view_of(frames: Frames, extent: Extent) -> View
    ensures { result ≡ view_of frames extent }
{
    match frames {
        Frames::All => {
            if 12 < extent.last.saturating_sub(extent.first) {
                View::Overview
            } else {
                View::Panels
            }
        }
        Frames::Between(_, _) => View::Panels,
    }
}

/// How these lines, of these frames, are shown.
pub(crate) fn sheet_of(frames: Frames, lines: &[Line]) -> Sheet
    ensures { result ≡ sheet_of frames lines.now }
{
    let extent = extent_of(lines);
    Sheet {
        view: view_of(frames, extent),
        extent,
    }
}

pub(crate) fn sheet_width(sheet: Sheet) -> u64
    ensures { result ≡ sheet_width sheet }
{
    match sheet.view {
        View::Panels => picture_width(sheet.extent),
        View::Overview => overview_width(sheet.extent),
    }
}

pub(crate) fn sheet_height(sheet: Sheet) -> u64
    ensures { result ≡ sheet_height sheet }
{
    match sheet.view {
        View::Panels => picture_height(sheet.extent),
        View::Overview => overview_height(sheet.extent),
    }
}
