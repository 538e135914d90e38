// A number of counted bytes, at most 2^62.
ghost use Rattle.std.specs.Prelude.{◌≡◌, ◌+◌, ◌*◌, ◌^◌, ◌≤◌};
ghost use Rattle.authority_model.specs.Costs.{capped};

use std::marker::Model;

/// The greatest cost, in counted bytes: 2^62. A cost above it counts as this one.
pub const MAX_COST: u64 = 1 << 62;

/// What a row counts beside its texts, in bytes.
const ROW: u64 = 64;

/// A number of counted bytes, at most `MAX_COST`.
#[derive(Clone, Copy)]
pub struct Cost {
    bytes: u64,
}

impl Model for Cost {
    ghost use Rattle.std.specs.Prelude.{ℕ, ◌≤◌, ◌^◌};

    ghost Value = { ℕ };

    ghost view = { λ cost. cost.bytes };

    ghost invariant = { λ cost. cost.bytes ≤ 2 ^ 62 };

    ghost inverse = { λ n. record { bytes = n } };
}

impl Cost {
    /// What counts nothing.
    pub const NOTHING: Cost = Cost { bytes: 0 };

    /// The cost of so many bytes.
    pub fn of_bytes(bytes: u64) -> Cost
        ensures cost { result ≡ capped bytes }
    {
        Cost {
            bytes: bytes.min(MAX_COST),
        }
    }

    /// The cost of so many rows without their texts: 64 bytes each.
    pub fn of_rows(count: usize) -> Cost
        ensures cost { result ≡ capped (64 * count) }
    {
        Cost::of_bytes((count as u64).saturating_mul(ROW))
    }

    /// Both costs together.
    pub fn plus(self, other: Cost) -> Cost
        ensures cost { result ≡ capped (self + other) }
    {
        Cost::of_bytes(self.bytes + other.bytes)
    }

    /// The number of counted bytes.
    pub fn bytes(self) -> u64
        ensures bytes { result ≡ self }
        ensures capped { self ≤ 2 ^ 62 }
    {
        self.bytes
    }
}
