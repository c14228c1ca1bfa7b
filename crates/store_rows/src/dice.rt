/// Numbers that look random, the same from the same seed.
#[derive(Clone, Copy)]
pub(crate) struct Dice {
    state: u64,
}

impl Dice {
    pub(crate) fn new(seed: u64) -> Dice {
        let mut dice = Dice { state: seed };
        dice.turn();
        dice.turn();
        dice
    }

    fn turn(&mut self) {
        self.state = self
            .state
            .wrapping_mul(6_364_136_223_846_793_005)
            .wrapping_add(1_442_695_040_888_963_407);
    }

    /// A number below this one; 0 where that is 0.
    pub(crate) fn below(&mut self, end: u64) -> u64 {
        self.turn();
        let number = self.state >> 33;
        if end == 0 { 0 } else { number % end }
    }
}
