//! The padding width: the number of digits of the longest line number.

ghost use Rattle.std.specs.Prelude.{◌≡◌, ◌<◌, ◌≤◌, ℕ, decimal, length, max};
ghost use Rattle.codespan_output.specs.Padding.{count_digits};

/// Returns how many digits a number has in decimal; 0 has one.
#[tactic(auto, using(crate::proofs::DrawnLines::Digits::counting))]
pub fn count_digits(number: usize) -> usize
    ensures { result ≡ count_digits number }
{
    let mut digits = 1;
    let mut rest = number;
    while rest >= 10 {
        rest /= 10;
        digits += 1;
    }
    digits
}

/// The number of digits of the longest of some numbers.
#[derive(Clone, Copy)]
pub struct PaddingWidth {
    /// The number of digits; 0 without a number.
    pub digit_count: usize,
    /// Numbers below this one are known to have no more digits.
    limit: usize,
    ghost fits: { (n : ℕ) → n < limit → length (decimal n) ≤ digit_count },
}

impl PaddingWidth {
    /// Returns a width of this many digits; 0 is that without a number. Its limit is known for 1 to
    /// 6 digits. For others it is 0, so the digits of each number are counted.
    pub fn with_digit_count(digit_count: usize) -> PaddingWidth
        ensures { result.digit_count ≡ digit_count }
    {
        let limit = match digit_count {
            1 => 10,
            2 => 100,
            3 => 1_000,
            4 => 10_000,
            5 => 100_000,
            6 => 1_000_000,
            _ => 0,
        };
        PaddingWidth { digit_count, limit }
    }

    /// Widens the padding to the digits of a number. Most numbers are found to fit by one
    /// comparison.
    #[inline(always)]
    pub fn fit(&mut self, number: usize)
        ensures { self.new.digit_count ≡ max (length (decimal number)) self.old.digit_count }
    {
        if number >= self.limit {
            *self = PaddingWidth::with_digit_count(count_digits(number).max(self.digit_count));
        }
    }
}
