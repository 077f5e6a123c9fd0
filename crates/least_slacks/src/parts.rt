// Which colours tables leave out: those that come again of the keys that they serve. A key whose
// slab may take no other colour needs no tables of other orders, and counts for nothing here.

ghost use Rattle.std.specs.Prelude.{◌≡◌, ◌<◌, ◌≤◌, ◌+◌, ◌||◌, ◌&&◌, not, true, false, ltb, All};
ghost use Rattle.std.specs.Prelude.{length};
ghost use Rattle.list_laws.specs.Sets.{holds};
ghost use Rattle.least_slacks.specs.Later.{IsLater};
ghost use Rattle.least_slacks.specs.Parts.{NameTheSame, ServesAll, out_of};

use crate::key::{Key, NO_COLOUR};
use crate::later_orders::{LaterOrders, has_colour};
use crate::least_slack::room_beside;
use crate::limits::SlabLimits;

/// Keys that tables are to serve, and those that the tables serve which they are made from. Where
/// they are the first, these have no order yet.
#[derive(Drop)]
pub(crate) struct Part<'a> {
    pub(crate) keys: &'a [Key],
    pub(crate) whole: &'a [Key],
    pub(crate) first: bool,
    /// The most colours of a slab.
    pub(crate) most: usize,
}

/// So many layers of a width, one after another.
#[derive(Clone, Copy)]
pub(crate) struct Shape {
    pub(crate) layers: usize,
    pub(crate) width: usize,
}

/// Whether tables leave a colour out for a key.
fn leaves_out(key: Key, most: usize, colour: u16) -> bool
    ensures { result ≡ (ltb key.colours most && holds colour key.coming) }
{
    key.colours < most && has_colour(&key.coming, colour)
}

/// Whether tables leave a colour out for some keys.
fn is_left_out(keys: &[Key], most: usize, colour: u16) -> bool
    ensures { result ≡ holds colour (out_of most keys.now) }
{
    for i in 0..keys.len() {
        if leaves_out(keys[i], most, colour) {
            return true;
        }
    }
    false
}

impl Part<'_> {
    /// Whether the orders of a colour are to be let in.
    pub(crate) fn lets_in(&self, colour: u16) -> bool
        ensures { result ≡ ((self.now.first
            || holds colour (out_of self.now.most self.now.whole.now))
            && not (holds colour (out_of self.now.most self.now.keys.now))) }
    {
        (self.first || is_left_out(self.whole, self.most, colour))
            && !is_left_out(self.keys, self.most, colour)
    }
}

/// Whether two keys name the same colours.
pub(crate) fn are_alike(a: [u16; 8], b: [u16; 8]) -> bool
    ensures { result ≡ true → a ≡ b }
{
    a == b
}

/// The colours to come of the first key whose slab may take another colour; none, if there is no
/// such key.
fn first_coming(keys: &[Key], most: usize) -> [u16; 8] {
    for key in keys {
        if key.colours < most {
            return key.coming;
        }
    }
    [NO_COLOUR; 8]
}

/// Whether a key counts, and has other colours to come.
fn differs(key: Key, most: usize, coming: [u16; 8]) -> bool
    ensures { result ≡ false → key.colours < most → key.coming ≡ coming }
{
    key.colours < most && !are_alike(key.coming, coming)
}

/// Whether one table serves all keys, since they have the same colours to come.
pub(crate) fn name_the_same(keys: &[Key], most: usize) -> bool
    ensures same { result ≡ true → NameTheSame most keys.now }
    ensures many { result ≡ false → 1 < length keys.now }
{
    if keys.len() < 2 {
        return true;
    }
    let coming = first_coming(keys, most);
    for i in 0..keys.len() {
        if differs(keys[i], most, coming) {
            return false;
        }
    }
    true
}

/// The fewest colours and the least load with one key more, where it counts.
fn with_key(least: (usize, usize), key: Key, most: usize) -> (usize, usize)
    ensures less { (result.0 ≤ least.0) × (result.1 ≤ least.1) }
    ensures here { key.colours < most → (result.0 ≤ key.colours) × (result.1 ≤ key.load) }
{
    if key.colours < most {
        (least.0.min(key.colours), least.1.min(key.load as usize))
    } else {
        least
    }
}

/// The fewest colours and the least load of the keys whose slabs may take another colour.
fn least_of(keys: &[Key], limits: &SlabLimits) -> (usize, usize)
    ensures few { result.0 ≤ limits.now.most }
    ensures light { result.1 ≤ limits.now.largest }
    ensures least { All (λ key. key.colours < limits.now.most →
        (result.0 ≤ key.colours) × (result.1 ≤ key.load)) keys.now }
{
    let mut least = (limits.most, limits.largest);
    for i in 0..keys.len() {
        least = with_key(least, keys[i], limits.most);
    }
    least
}

/// How many layers some keys need, and how wide.
pub(crate) fn shape_for(keys: &[Key], limits: &SlabLimits, later: &LaterOrders) -> Shape
    requires later { IsLater later.now }
    ensures few { result.layers ≤ limits.now.most + 1 }
    ensures some { 0 < result.width }
    ensures narrow { result.width ≤ limits.now.largest + 1 }
    ensures serves { ServesAll limits.now later.now result keys.now }
{
    let (fewest, least) = least_of(keys, limits);
    Shape {
        layers: (limits.most - fewest).min(later.kinds) + 1,
        width: room_beside(limits, later, least),
    }
}
