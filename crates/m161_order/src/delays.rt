//! The choices of a run at which ready processors are passed over.

ghost use Rattle.std.specs.Prelude.{◌≡◌, ◌≤◌, ◌<◌, ◌==◌, ◌++◌, ◌∷◌, [], ℕ, MatchResult, Some, None, count_by, length};
ghost use Rattle.m161_order.specs.Delays.{behind, delay_fault, delays_of, until_due};

use thiserror::Error;

/// How many numbers a list has at most.
const MOST: usize = 64;

/// Why a number isn't added. The second is returned only if the first doesn't hold.
#[derive(Clone, Copy, Debug, PartialEq, Eq, Error)]
pub enum DelayError {
    /// There are 64 numbers.
    #[error("there are at most 64 delays")]
    TooMany,
    /// It is less than the last number.
    #[error("delays are in ascending order")]
    Descending,
}

/// Delays: how many choices further on each of them comes, at most 64 of them. At that choice a ready
/// processor is passed over, and at one where two come, two are.
#[derive(Clone, Copy, Debug, PartialEq, Eq)]
pub struct Delays {
    numbers: [u32; MOST],
    count: usize,
}

impl Delays {
    /// No delay.
    pub fn none() -> Delays
        ensures { delays_of result ≡ [] }
    {
        Delays {
            numbers: [0; MOST],
            count: 0,
        }
    }

    /// Their numbers.
    pub fn as_slice(&self) -> &[u32]
        ensures numbers { result.now ≡ delays_of self.now }
        ensures few { length result.now ≤ 64 }
    {
        let (numbers, _) = self.numbers.split_at(self.count.min(MOST));
        numbers
    }

    // Adds a number behind the others.
    fn add(&mut self, number: u32)
        requires { length (delays_of self.old) < 64 }
        ensures { delays_of self.new ≡ delays_of self.old ++ number ∷ [] }
    {
        self.numbers[self.count] = number;
        self.count += 1;
    }

    /// Adds a number behind the others.
    ///
    /// # Errors
    /// There is no room for it, or it is less than the last one. Nothing is changed then.
    pub fn push(&mut self, number: u32) -> Result<(), DelayError>
        ensures { MatchResult result
            (λ _. (delay_fault (delays_of self.old) number ≡ None)
            × (delays_of self.new ≡ delays_of self.old ++ number ∷ []))
            (λ e. (delay_fault (delays_of self.old) number ≡ Some e) × (self.new ≡ self.old)) }
    {
        let numbers = self.as_slice();
        let count = numbers.len();
        if count == MOST {
            return Err(DelayError::TooMany);
        }
        if count > 0 && number < numbers[count - 1] {
            return Err(DelayError::Descending);
        }
        self.add(number);
        Ok(())
    }

    /// How many come at this choice.
    pub fn due(&self) -> u32
        ensures value { result ≡ count_by (λ n. n == 0) (delays_of self.now) }
        ensures few { result ≤ 64 }
    {
        let numbers = self.as_slice();
        let mut due = 0;
        for number in numbers {
            if *number == 0 {
                due += 1;
            }
        }
        due
    }

    /// Of how many choices, this one the first, none has a delay; at most `u32::MAX`.
    pub fn until_due(&self) -> u32
        ensures value { result ≡ until_due (delays_of self.now) }
        ensures none { (k : ℕ) → k < result → count_by (λ n. n == k) (delays_of self.now) ≡ 0 }
    {
        let numbers = self.as_slice();
        let mut until = u32::MAX;
        for number in numbers {
            until = until.min(*number);
        }
        until
    }

    /// Goes so many choices further on: those that came before are left out.
    pub fn pass(&mut self, choices: u64)
        ensures { delays_of self.new ≡ behind choices (delays_of self.old) }
    {
        let count = self.count.min(MOST);
        let mut left = 0;
        for place in 0..count {
            let until = u64::from(self.numbers[place]);
            if until >= choices {
                self.numbers[left] = (until - choices) as u32;
                left += 1;
            }
        }
        self.count = left;
    }
}
