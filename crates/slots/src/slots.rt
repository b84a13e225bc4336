//! The type of tables of slots.
ghost use Rattle.std.specs.Prelude.{◌≡◌, ℕ, ◌<◌, ◌≤◌, Some, is_some, slice_index};
ghost use Rattle.plan.specs.Counts.{passing};
ghost use Rattle.slots.specs.Entries.{entry, Clash, Spare, Double, Reused};

/// Which of `places` slots each patch has: client c's patch in column i and row j has the entry 300 * c + 20 * j + i of the table.
/// `used` slots are in use. The others stand in `spare`, from its entry `used` up to `places`, so that one is found, and given back,
/// at once. This stack is an array with its length, and no `Vec`, since a table uses no heap, and no `ArrayVec`, which is not `Copy` and whose
/// clone can fail: a table is copied where a change is tried, and no copy fails.
#[derive(Clone, Copy)]
pub struct Slots {
    pub(crate) places: u16,
    pub(crate) used: u16,
    pub(crate) table: [Option<u16>; 2400],
    pub(crate) spare: [u16; 4096],
    ghost room: { places ≤ 4096 },
    ghost most: { used ≤ places },
    ghost count: { used ≡ passing (λ k. is_some (entry table k)) },
    ghost low: { (k slot : ℕ) → entry table k ≡ Some slot → slot < places },
    ghost apart: { (p q : ℕ) → Clash table p q → p ≡ q },
    ghost there: { (i : ℕ) → Spare used places i → slice_index spare i < places },
    ghost free: { (i k : ℕ) → Reused used places spare table i k → ⊥ },
    ghost once: { (i j : ℕ) → Double used places spare i j → i ≡ j },
}
