//! What the samples on a row weigh together, in 16 bytes.
ghost use Rattle.std.specs.Prelude.{◌≡◌, ◌^◌, ◌<◌, ◌+ℤ◌, pos, Some, None, unsigned_abs, unwrap_or};

use std::marker::Model;

/// The weight of the samples on a row, in the unit of the samples' weights, or none where no sample is. The least number of
/// 128 bits stands for none, which no sum of 2^23 weights of 64 bits comes to.
#[derive(Clone, Copy, Debug)]
pub struct RowWeight {
    sum: i128,
}

impl Model for RowWeight {
    ghost use Rattle.std.specs.Prelude.{ℤ, Option, unwrap_or};
    ghost use Rattle.prof_view_tree.specs.Sums.{no_sample, weight_in, sum_back};

    ghost Value = { Option ℤ };

    ghost view = { λ w. weight_in w.sum };

    ghost inverse = { λ o. record { sum = unwrap_or o no_sample } };

    ghost inverse_ok = { λ w h i. record { sum = sum_back w.sum i } };
}

impl RowWeight {
    /// No sample is on the row.
    pub fn none() -> Self
        ensures { result ≡ None }
    {
        RowWeight { sum: i128::MIN }
    }

    /// The weight, where there is one.
    pub fn get(self) -> Option<i128>
        ensures { result ≡ self }
    {
        if self.sum == i128::MIN {
            None
        } else {
            Some(self.sum)
        }
    }

    /// The weight with that of more samples.
    pub fn with(self, more: i128) -> Self
        requires { unsigned_abs (unwrap_or self (pos 0) +ℤ more) < 2 ^ 127 }
        ensures { result ≡ Some (unwrap_or self (pos 0) +ℤ more) }
    {
        RowWeight {
            sum: self.get().unwrap_or(0) + more,
        }
    }
}
