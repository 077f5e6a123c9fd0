// The rules that records are judged by: the mill, the orders in rank and the charges.

ghost use Rattle.std.specs.Prelude.{◌≡◌, ◌<◌, ◌≤◌, true, length, slice_index, slice_index_or};
ghost use Rattle.std.specs.Prelude.{drop, eqb, IfSome, IfNone};
ghost use Rattle.mill_model.specs.LiveKey.{has_colour};
ghost use Rattle.mill_model.specs.declared.charges.TheConstants.{MAX_CHARGE};
ghost use Rattle.log_checker.specs.Groups.{no_order};
ghost use Rattle.log_checker.specs.Live.{IsLightest, AreNone};
ghost use Rattle.log_checker.specs.Setting.{IsSetting, AreEnds};

use least_slacks::SlabLimits;
use mill_model::Order;

/// What a log is judged by: the orders in rank, the charge of each load, and what a slab may hold.
/// The charges are a slice, as the least slacks read them.
#[derive(Drop)]
pub(crate) struct Rules {
    pub(crate) ranked: Vec<Order>,
    pub(crate) charges: Vec<u64>,
    pub(crate) largest: u32,
    pub(crate) most_colours: u8,
    /// One more than the last rank of each colour.
    pub(crate) last: Vec<usize>,
    ghost setting: { IsSetting ranked.items charges.items largest most_colours },
    ghost ends: { AreEnds ranked.items last.items },
}

impl Rules {
    /// The order of a rank.
    pub(crate) fn order(&self, rank: usize) -> Order
        requires { rank < length self.now.ranked.items }
        ensures is { result ≡ slice_index_or self.now.ranked.items rank no_order }
        ensures light { result.weight ≤ 1000000 }
    {
        self.ranked[rank]
    }

    /// The orders from a rank on.
    pub(crate) fn later(&self, rank: usize) -> &[Order]
        requires { rank ≤ length self.now.ranked.items }
        ensures { result.now ≡ drop rank self.now.ranked.items }
    {
        &self.ranked[rank..]
    }

    /// Whether some order from a rank on has a colour.
    pub(crate) fn comes(&self, rank: usize, colour: u16) -> bool
        ensures { result ≡ has_colour (drop rank self.now.ranked.items) colour }
    {
        if self.last.len() <= colour as usize {
            return false;
        }
        rank < self.last[colour as usize]
    }

    /// The lightest order from a rank on.
    pub(crate) fn lightest(&self, rank: usize) -> Option<Order>
        ensures some { IfSome result
            (IsLightest (λ order. true) (drop rank self.now.ranked.items)) }
        ensures none { IfNone result
            (AreNone (λ order. true) (drop rank self.now.ranked.items)) }
    {
        if self.ranked.len() <= rank {
            return None;
        }
        Some(self.order(self.ranked.len() - 1))
    }

    /// The lightest order of a colour from a rank on.
    pub(crate) fn lightest_of(&self, rank: usize, colour: u16) -> Option<Order>
        ensures some { IfSome result
            (IsLightest (λ order. eqb colour order.colour) (drop rank self.now.ranked.items)) }
        ensures none { IfNone result
            (AreNone (λ order. eqb colour order.colour) (drop rank self.now.ranked.items)) }
    {
        if !self.comes(rank, colour) {
            return None;
        }
        Some(self.order(self.last[colour as usize] - 1))
    }

    /// What a load is charged: nothing where no slab holds it.
    pub(crate) fn charge(&self, load: u64) -> u64
        ensures is { result ≡ slice_index self.now.charges.items load }
        ensures small { result ≤ MAX_CHARGE }
    {
        if load < self.charges.len() as u64 {
            self.charges[load as usize]
        } else {
            0
        }
    }

    /// What a slab may hold, and what each load is charged.
    pub(crate) fn limits(&self) -> SlabLimits
        ensures largest { result.largest ≡ self.now.largest }
        ensures most { result.most ≡ self.now.most_colours }
        ensures charges { result.charges.now ≡ self.now.charges.items }
    {
        SlabLimits {
            largest: self.largest as usize,
            most: self.most_colours as usize,
            charges: &self.charges,
        }
    }
}
