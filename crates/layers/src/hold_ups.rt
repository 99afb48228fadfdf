ghost use Rattle.std.specs.Prelude.{◌≡◌, nat_lt, MatchBool};
ghost use Rattle.layers.specs.Holding.{whole, once_less, fresh, held_up, restarted, counted};

use drive::place::MAX_CARRIERS;
use std::array;

/// How often a carrier's movements are held up, and how often its present one still is.
#[derive(Clone, Copy)]
struct HoldUp {
    number: u8,
    left: u8,
}

impl HoldUp {
    /// A movement that is held up so often, and has not been yet.
    fn whole(number: u8) -> HoldUp
        ensures { result ≡ whole number }
    {
        HoldUp {
            number,
            left: number,
        }
    }

    /// A new movement begins.
    fn restart(&mut self)
        ensures { self.new ≡ whole self.old.number }
    {
        *self = HoldUp::whole(self.number);
    }

    /// Whether the movement is held up now; if so, it is held up once less from now on.
    fn hold(&mut self) -> bool
        ensures held { result ≡ nat_lt 0 self.old.left }
        ensures left { MatchBool result (self.new ≡ once_less self.old) (self.new ≡ self.old) }
    {
        if self.left == 0 {
            return false;
        }
        self.left -= 1;
        true
    }
}

/// How often the movements of each carrier are held up.
// Indexed after a test: through `get_mut` the proof did not close, for it knows no element after it.
#[derive(Drop)]
pub struct HoldUps {
    each: [HoldUp; MAX_CARRIERS],
}

impl HoldUps {
    /// Each carrier's number of hold-ups; none of them has happened yet.
    pub fn new(numbers: [u8; MAX_CARRIERS]) -> HoldUps
        ensures { result ≡ fresh numbers }
    {
        HoldUps {
            each: array::from_fn(|i| HoldUp::whole(numbers[i])),
        }
    }

    /// A new movement of the carrier begins.
    pub fn restart(&mut self, carrier: u8)
        ensures { self.new ≡ restarted self.old carrier }
    {
        let i = usize::from(carrier);
        if i < MAX_CARRIERS {
            self.each[i].restart();
        }
    }

    /// Whether the carrier's movement is held up now; if so, it is held up once less from now on.
    pub fn hold(&mut self, carrier: u8) -> bool
        ensures held { result ≡ held_up self.old carrier }
        ensures left { MatchBool result (self.new ≡ counted self.old carrier) (self.new ≡ self.old) }
    {
        let i = usize::from(carrier);
        i < MAX_CARRIERS && self.each[i].hold()
    }
}
