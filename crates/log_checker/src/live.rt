// Whether a later order may join a group, and what the groups that none may join are charged.

ghost use Rattle.std.specs.Prelude.{◌≡◌, ◌*◌, ◌+◌, drop};
ghost use Rattle.std.specs.List.{list_any};
ghost use Rattle.mill_model.specs.LiveKey.{dead_loss};
ghost use Rattle.log_checker.specs.ByRules.{mill_by, charge_by};
ghost use Rattle.log_checker.specs.Live.{lives, takes_of};

use crate::grouped_path::GroupedPath;
use crate::groups::Group;
use crate::rules::Rules;

/// Whether an order of a colour, from a rank on, may join a group.
fn takes_of(rules: &Rules, group: &Group, k: usize, colour: u16) -> bool
    ensures { result ≡
        takes_of (mill_by rules.now) (drop k rules.now.ranked.items) group.now colour }
{
    match rules.lightest_of(k, colour) {
        Some(order) => group.may_join(rules, order),
        None => false,
    }
}

/// Whether an order of an own colour, from a rank on, may join a group.
fn takes_own(rules: &Rules, group: &Group, k: usize) -> bool
    ensures { result ≡ list_any (takes_of (mill_by rules.now) (drop k rules.now.ranked.items)
        group.now) group.now.colours }
{
    for colour in group.colours() {
        if takes_of(rules, group, k, *colour) {
            return true;
        }
    }
    false
}

/// Whether some order from a rank on may join a group.
pub(crate) fn is_live(rules: &Rules, group: &Group, k: usize) -> bool
    ensures { result ≡ lives (mill_by rules.now) (drop k rules.now.ranked.items) group.now }
{
    // No other order may join a group that has as many colours as may be.
    if rules.most_colours as usize <= group.colours().len() {
        return takes_own(rules, group, k);
    }
    match rules.lightest(k) {
        Some(order) => group.may_join(rules, order),
        None => false,
    }
}

impl GroupedPath<'_> {
    /// What the groups that aren't live are charged.
    pub(crate) fn dead_charge(&self) -> u64
        ensures { result ≡ dead_loss (mill_by self.now.rules.now) (charge_by self.now.rules.now)
            self.now.rules.now.ranked.items self.now.path.now }
    {
        let k = self.path.len();
        let mut sum = 0u64;
        for g in 0..self.groups.len() {
            if !is_live(self.rules, &self.groups[g], k) {
                sum += self.charge_of(g);
            }
        }
        sum
    }
}
