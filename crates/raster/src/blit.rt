//! A call of BitBlt that is checked and clipped.
ghost use Rattle.std.specs.Prelude.{◌≡◌, ◌*◌};
ghost use Rattle.raster.specs.Calls.{fill_with, scroll_by};
ghost use Rattle.raster.specs.Blits.{Prepares};

use crate::clip::Clip;
use crate::fault::Fault;
use crate::ink::Ink;
use crate::rectangle::Rectangle;
use crate::refusal::Refusal;
use crate::rule::Rule;
use crate::size::Size;
use crate::span::Span;
use crate::transfer::Transfer;

/// What is left to paint of a call that is not refused.
#[derive(Clone, Copy)]
pub struct Blit {
    pub rule: Rule,
    pub ink: Ink,
    pub columns: Span,
    pub rows: Span,
}

impl Blit {
    /// The blit of a fill on a bitmap of a size.
    pub fn fill(size: Size, rule: u8, v: u8, area: Rectangle) -> Result<Blit, Fault>
        ensures { Prepares size (fill_with rule v area.x area.y area.w area.h) result }
    {
        let rule = Rule::try_from(rule)?;
        if size.excludes(v) {
            return Err(Refusal::ValueTooLarge.into());
        }
        let Clip { columns, rows } = area.clip(size);
        Ok(Blit {
            rule,
            ink: Ink::Value(v),
            columns,
            rows,
        })
    }

    /// The blit of a scroll on a bitmap of a size.
    pub fn scroll(size: Size, transfer: Transfer) -> Result<Blit, Fault>
        ensures { Prepares size (scroll_by transfer) result }
    {
        let rule = Rule::try_from(transfer.rule)?;
        let Clip { columns, rows } = transfer.clip(size, size);
        Ok(Blit {
            rule,
            ink: Ink::Itself,
            columns,
            rows,
        })
    }

    /// How many pixels it paints.
    pub fn count(&self) -> u32
        ensures { result ≡ self.now.rows.len * self.now.columns.len }
    {
        let Blit { columns, rows, .. } = *self;
        Clip { columns, rows }.count()
    }
}
