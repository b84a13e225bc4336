//! Drawing on layers: blits painted and bitmaps stamped.
ghost use Rattle.std.specs.Prelude.{◌≡◌};
ghost use Rattle.raster.specs.Picture.{sizes};
ghost use Rattle.raster.specs.Blt.{from_picture, count, blt};
ghost use Rattle.raster.specs.declared.transfer.Transfer.{Transfer};
ghost use Rattle.raster.specs.Blits.{performed};
ghost use Rattle.hold.specs.Bitmaps.{layer_on, Draws, Drawing};
ghost use Rattle.draw.specs.Areas.{BlitWithin};
ghost use Rattle.draw.specs.Sources.{in_place};
ghost use Rattle.draw.specs.Stamps.{Stamps};

use crate::blending::blend;
use crate::source::Laid;
use hold::Layer;
use raster::{Bitmap, Blit, Clip, Rule, Span};

/// Performs a blit on a layer.
pub fn paint<S: Bitmap, T: Bitmap>(screen: &mut S, store: &mut T, layer: Layer<'_>, blit: Blit)
    ensures { Drawing S.Bitmap T.Bitmap (BlitWithin layer.entry.layout.plan.now layer.entry.client blit) layer.entry screen.old store.old screen.new store.new (performed blit) }
{
    let Blit {
        rule,
        ink,
        columns,
        rows,
    } = blit;
    blend(screen, store, layer, &ink, rule, Clip { columns, rows });
}

/// The places of a span, as their own source.
fn in_place(span: Span) -> Span
    ensures { result ≡ in_place span }
{
    Span {
        source: span.first,
        ..span
    }
}

/// Stamps another bitmap on a layer: the rest of a BitBlt that is clipped; the count of pixels concerned.
pub fn stamp<S: Bitmap, T: Bitmap, B: Bitmap>(
    screen: &mut S,
    store: &mut T,
    layer: Layer<'_>,
    source: &B,
    rule: Rule,
    clip: Clip,
) -> u32
    ensures drawn { (t : Transfer) → Stamps layer.entry.layout.plan.now layer.entry.client t (sizes (B.Bitmap.picture source.now)) rule clip.columns clip.rows → Draws S.Bitmap T.Bitmap layer.entry screen.old store.old screen.new store.new (blt t (from_picture (B.Bitmap.picture source.now))) }
    ensures count { (t : Transfer) → Stamps layer.entry.layout.plan.now layer.entry.client t (sizes (B.Bitmap.picture source.now)) rule clip.columns clip.rows → result ≡ count t (from_picture (B.Bitmap.picture source.now)) (sizes (layer_on S.Bitmap T.Bitmap layer.entry screen.old store.old)) }
    ensures screen { S.Bitmap.keeps screen.old screen.new }
    ensures store { T.Bitmap.keeps store.old store.new }
{
    let Clip { columns, rows } = clip;
    let laid = Laid {
        bitmap: source,
        columns,
        rows,
    };
    let places = Clip {
        columns: in_place(columns),
        rows: in_place(rows),
    };
    blend(screen, store, layer, &laid, rule, places);
    clip.count()
}
