//! Stamping another bitmap on a layer.
ghost use Rattle.std.specs.Prelude.{◌≡◌, Some, None, MatchResult};
ghost use Rattle.raster.specs.Calls.{first_fault};
ghost use Rattle.paper.specs.Desk.{stamp_layer};
ghost use Rattle.desk.specs.Desks.{on_paper, Performed};
ghost use Rattle.desk.specs.Carried.{stamp_checks};

use crate::desk::Desk;
use crate::faults::because;
use draw::stamp;
use paper::DeskFault;
use raster::{Bitmap, Refusal, Rule, Transfer};

impl<S: Bitmap, T: Bitmap> Desk<S, T> {
    /// The rule of a stamp on the client's layer from a bitmap of a depth, or what is refused.
    fn check_stamp(&self, c: u8, rule: u8, depth: u8) -> Result<Rule, DeskFault>
        ensures { MatchResult result (λ x. (first_fault (stamp_checks c (on_paper S.Bitmap T.Bitmap self.now) rule depth) ≡ None) × (x.number ≡ rule)) (λ f. first_fault (stamp_checks c (on_paper S.Bitmap T.Bitmap self.now) rule depth) ≡ Some f) }
    {
        self.check_open(c)?;
        let rule = Rule::try_from(rule).map_err(|why| because(why, c))?;
        if depth > self.screen.size().depth {
            return Err(because(Refusal::ValueTooLarge, c));
        }
        Ok(rule)
    }

    /// BitBlt onto the client's layer from another bitmap, of any kind; the count of pixels concerned.
    pub fn stamp<B: Bitmap>(
        &mut self,
        c: u8,
        source: &B,
        transfer: Transfer,
    ) -> Result<u32, DeskFault>
        ensures { Performed S.Bitmap T.Bitmap self.old (stamp_layer c transfer (B.Bitmap.picture source.now)) result self.new }
    {
        let from = source.size();
        let rule = self.check_stamp(c, transfer.rule, from.depth)?;
        let clip = transfer.clip(from, self.pane_size(c));
        let layer = self.book.layer(c);
        Ok(stamp(&mut self.screen, &mut self.store, layer, source, rule, clip))
    }
}
