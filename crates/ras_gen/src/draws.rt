//! The numbers that a seed gives, by the linear congruential generator of the C standard's sample
//! of `rand`.
ghost use Rattle.std.specs.Prelude.{◌≡◌, ◌≤◌, ◌<◌, ◌^◌};

/// The greatest seed. A state of the generator has 31 bits, and the seed is its first state.
pub const MAX_SEED: u32 = 2_147_483_647;

/// How many states there are.
const STATES: u64 = MAX_SEED as u64 + 1;

const MULTIPLIER: u64 = 1_103_515_245;

const INCREMENT: u64 = 12_345;

/// The lower 16 bits of a state repeat soon. A draw leaves them out: it takes the state divided by
/// this.
const LOW_PART: u32 = 65_536;

/// A generator, by its state.
#[derive(Drop)]
pub struct Draws {
    pub state: u32,
    ghost small: { state < 2 ^ 31 },
}

impl Draws {
    ghost use Rattle.ras_gen.specs.Draws.{next_state, number_drawn};

    /// The generator whose first state is the seed.
    pub fn new(seed: u32) -> Draws
        requires { seed ≤ MAX_SEED }
        ensures { result.state ≡ seed }
    {
        Draws { state: seed }
    }

    /// The next number below a bound.
    pub fn below(&mut self, bound: u32) -> u32
        requires { 0 < bound }
        ensures state { self.new.state ≡ next_state self.old.state }
        ensures number { result ≡ number_drawn self.new.state bound }
    {
        let next = (u64::from(self.state) * MULTIPLIER + INCREMENT) % STATES;
        self.state = next as u32;
        self.state / LOW_PART % bound
    }
}
