ghost use Rattle.std.specs.Prelude.{◌≡◌, ◌<◌};
ghost use Rattle.pseudorandom.specs.Generators.{after, below_of};

#[derive(Drop)]
pub struct Generator {
    state: u64,
}

impl Generator {
    pub fn new(seed: u64) -> Generator
        ensures starts_at_the_seed { result.state ≡ seed }
    {
        Generator { state: seed }
    }

    // The next number, below n; 0 where n is 0.
    pub fn below(&mut self, n: u16) -> u16
        ensures steps_the_state { self.new.state ≡ after self.old.state }
        ensures is_high_bits_below_n { result ≡ below_of (after self.old.state) n }
        ensures is_below_n { 0 < n → result < n }
    {
        self.state = self
            .state
            .wrapping_mul(6_364_136_223_846_793_005)
            .wrapping_add(1_442_695_040_888_963_407);
        if n == 0 {
            return 0;
        }
        // below n, so it fits
        ((self.state >> 33) % u64::from(n)) as u16
    }
}
