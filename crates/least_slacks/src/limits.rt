ghost use Rattle.std.specs.Prelude.{◌≡◌, ◌+◌, ◌≤◌, All, length};
ghost use Rattle.mill_model.specs.declared.charges.TheConstants.{MAX_CHARGE};

/// What a slab may hold, and what each load is charged.
#[derive(Drop)]
pub struct SlabLimits<'a> {
    pub largest: usize,
    pub most: usize,
    pub charges: &'a [u64],
    pub ghost size: { largest ≤ 20000 },
    pub ghost few: { most ≤ 8 },
    pub ghost reach: { length charges.now ≡ largest + 1 },
    pub ghost small: { All (λ charge. charge ≤ MAX_CHARGE) charges.now },
}
