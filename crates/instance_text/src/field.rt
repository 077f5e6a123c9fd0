ghost use Rattle.std.specs.Prelude.{◌≡◌};
ghost use Rattle.instance_text.specs.Fields.{in_range, name_of};

/// What a token of an instance text says.
#[derive(Clone, Copy, Debug, PartialEq, Eq)]
pub enum Field {
    /// How many sizes follow.
    SizeCount,
    /// A size of slabs.
    Size,
    /// How many colours the file states; no rule uses it.
    ColourCount,
    /// How many orders follow.
    OrderCount,
    /// The weight of an order.
    Weight,
    /// The colour of an order.
    Colour,
}

impl Field {
    /// The name that refusals print.
    pub fn name(self) -> &'static str
        ensures { result.now ≡ name_of self }
    {
        match self {
            Field::SizeCount => "sizecount",
            Field::Size => "size",
            Field::ColourCount => "colourcount",
            Field::OrderCount => "orders",
            Field::Weight => "weight",
            Field::Colour => "colour",
        }
    }

    /// Whether a number is in the range of this field.
    pub fn admits(self, number: u64) -> bool
        ensures { result ≡ in_range self number }
    {
        match self {
            Field::SizeCount => (1..=1024).contains(&number),
            Field::Size => (1..=20_000).contains(&number),
            Field::ColourCount => number <= 4096,
            Field::OrderCount => number <= 1024,
            Field::Weight => (1..=1_000_000).contains(&number),
            Field::Colour => (1..=4096).contains(&number),
        }
    }
}
