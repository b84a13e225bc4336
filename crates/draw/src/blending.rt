//! Rectangles of layers, combined with a source pixel by pixel where they lie.
ghost use Rattle.hold.specs.Bitmaps.{Drawing};
ghost use Rattle.draw.specs.Areas.{Within, RowWithin};
ghost use Rattle.draw.specs.Sources.{row_blended, all_blended, ReadsRow, ReadsAll};

use crate::source::Source;
use crate::touch::touch;
use hold::Layer;
use raster::{Bitmap, Clip, Rule, Span};

// Screen and store stay two parameters, as in hold.
/// Combines the pixels of some columns in the row `y` of a layer with those opposite in the row `sy` of a source.
fn blend_row<S: Bitmap, T: Bitmap, P: Source>(
    screen: &mut S,
    store: &mut T,
    layer: Layer<'_>,
    source: &P,
    rule: Rule,
    columns: Span,
    y: u16,
    sy: u16,
)
    ensures { Drawing S.Bitmap T.Bitmap (RowWithin layer.entry.layout.plan.now layer.entry.client columns y × ReadsRow (P.Source.places source.now layer.entry) columns sy) layer.entry screen.old store.old screen.new store.new (row_blended rule.number (P.Source.pixel source.now) columns y sy) }
{
    // By an index, here and below: the law of the order speaks of the turn's number, and both ends of the pair follow from it.
    for i in 0..columns.len {
        let k = columns.turn(i);
        let from = columns.source.saturating_add(k);
        let s = source.sample(screen, store, layer, from, sy);
        let x = columns.first.saturating_add(k);
        touch(screen, store, layer, rule, s, x, y);
    }
}

/// Combines the pixels of some columns and rows of a layer with those opposite in a source.
pub(crate) fn blend<S: Bitmap, T: Bitmap, P: Source>(
    screen: &mut S,
    store: &mut T,
    layer: Layer<'_>,
    source: &P,
    rule: Rule,
    clip: Clip,
)
    ensures { Drawing S.Bitmap T.Bitmap (Within layer.entry.layout.plan.now layer.entry.client clip.columns clip.rows × ReadsAll (P.Source.places source.now layer.entry) clip.columns clip.rows) layer.entry screen.old store.old screen.new store.new (all_blended rule.number (P.Source.pixel source.now) clip.columns clip.rows) }
{
    let Clip { columns, rows } = clip;
    for j in 0..rows.len {
        let k = rows.turn(j);
        let y = rows.first.saturating_add(k);
        let from = rows.source.saturating_add(k);
        blend_row(screen, store, layer, source, rule, columns, y, from);
    }
}
