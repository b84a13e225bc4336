//! The sixteen rules, and how a rule combines two pixels.
ghost use Rattle.std.specs.Prelude.{◌≡◌, ◌<◌, ◌≤◌, min, MatchResult};
ghost use Rattle.raster.specs.Rules.{result as rule_result, combined};
ghost use Rattle.raster.specs.declared.refusal.Refusal.TheVariants.{RuleAboveFifteen};

use crate::refusal::Refusal;

/// The result bits of each rule for the pairs (source, destination) = (0,0), (0,1), (1,0) and (1,1).
const RESULTS: [[u8; 4]; 16] = [
    [0, 0, 0, 0],
    [0, 0, 0, 1],
    [0, 0, 1, 0],
    [0, 0, 1, 1],
    [0, 1, 0, 0],
    [0, 1, 0, 1],
    [0, 1, 1, 0],
    [0, 1, 1, 1],
    [1, 0, 0, 0],
    [1, 0, 0, 1],
    [1, 0, 1, 0],
    [1, 0, 1, 1],
    [1, 1, 0, 0],
    [1, 1, 0, 1],
    [1, 1, 1, 0],
    [1, 1, 1, 1],
];

/// The number of the rule whose result is the source.
pub const SOURCE: u8 = 3;

/// One of the sixteen rules.
// A number, not sixteen names: its four bits are the results, and the table is read by it.
#[derive(Clone, Copy)]
pub struct Rule {
    number: u8,
    ghost listed: { number < 16 },
}

/// The rule of a number; above 15 there is none.
impl TryFrom<u8> for Rule {
    type Error = Refusal;

    ghost try_from_gives = { λ n r. MatchResult r (λ x. (n ≤ 15) × (x.number ≡ n)) (λ why. (15 < n) × (why ≡ RuleAboveFifteen)) };

    fn try_from(number: u8) -> Result<Rule, Refusal> {
        if number < 16 {
            Ok(Rule { number })
        } else {
            Err(Refusal::RuleAboveFifteen)
        }
    }
}

impl Rule {
    /// The result bit at a source bit and a destination bit.
    fn result_bit(self, s: u8, d: u8) -> u8
        requires source { s < 2 }
        requires destination { d < 2 }
        ensures { result ≡ rule_result self.number s d }
    {
        RESULTS[self.number as usize][(2 * s + d) as usize]
    }

    /// Two pixels, combined bit by bit over the depth; a byte has no more than 8 bits.
    pub fn combine(self, depth: u8, s: u8, d: u8) -> u8
        ensures { result ≡ combined (min depth 8) self.number s d }
    {
        let mut all = 0;
        for j in 0..depth.min(8) {
            all += self.result_bit((s >> j) & 1, (d >> j) & 1) << j;
        }
        all
    }
}
