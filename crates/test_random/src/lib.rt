//! Pseudo-random numbers for tests, the same in each run, so that what a test prints can be compared.
//!
//! ```
//! use test_random::Xorshift;
//!
//! /// A throw of a die; the one after it comes from the same generator.
//! fn throw(random: &mut Xorshift) -> u64 {
//!     random.next() % 6 + 1
//! }
//! ```
//!
//! `Xorshift::FIRST` is the generator to begin with.

#![tactic(auto)]

ghost use Rattle.std.specs.Prelude.{◌≡◌};
ghost use Rattle.test_random.specs.Xorshift.{stepped};

/// Marsaglia's xorshift generator with 64 bits of state.
#[derive(Clone, Copy, Debug, PartialEq, Eq)]
pub struct Xorshift {
    pub state: u64,
}

impl Xorshift {
    /// The generator in the state that is usually taken first.
    pub const FIRST: Xorshift = Xorshift {
        state: 88172645463325252,
    };

    /// The next number, which is the state then.
    pub fn next(&mut self) -> u64
        ensures value { result ≡ stepped self.old.state }
        ensures state { self.new.state ≡ stepped self.old.state }
    {
        self.state ^= self.state << 13;
        self.state ^= self.state >> 7;
        self.state ^= self.state << 17;
        self.state
    }
}
