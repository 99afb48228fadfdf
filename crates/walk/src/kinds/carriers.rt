ghost use Rattle.std.specs.Prelude.{◌≡◌, refl};
ghost use Rattle.std.proofs.Common.{ap};
ghost use Rattle.walk.specs.Kinds.{sets, own_carrier, carrier_bit, carrier_set};
ghost use Rattle.std.proofs.lemmas.Nat.{or_comm};
ghost use Rattle.std.specs.Int.Bits.{or_self};
ghost use Rattle.walk.specs.Unions.{or_assoc, with_union};

use super::{CarrierSet, Kind, Starting};
use crate::visit::Visit;

/// The set of one carrier; there are sixteen carriers.
fn bit(carrier: u8) -> u16
    ensures { result ≡ carrier_bit carrier }
{
    1u16.checked_shl(u32::from(carrier)).unwrap_or(0)
}

impl Kind for CarrierSet {
    ghost ops = { sets };

    ghost laws = { record {
      assoc = λ x y z. ap carrier_set (or_assoc x.bits y.bits z.bits);
      comm = λ x y. ap carrier_set (or_comm x.bits y.bits);
      zero_join = λ x. refl;
      step_zero = λ v. refl;
      step_join = λ x y v. ap carrier_set (with_union x.bits y.bits v.carrier);
    } };

    ghost idempotent = { λ x. ap carrier_set (or_self x.bits) };

    fn zero() -> CarrierSet {
        CarrierSet::default()
    }

    fn join(self, other: CarrierSet) -> CarrierSet {
        CarrierSet {
            bits: self.bits | other.bits,
        }
    }

    fn step(self, visit: Visit) -> CarrierSet {
        if self.bits == 0 {
            self
        } else {
            CarrierSet {
                bits: self.bits | bit(visit.carrier),
            }
        }
    }

    fn same(self, other: CarrierSet) -> bool {
        self == other
    }
}

impl Starting for CarrierSet {
    ghost starting = { own_carrier };

    fn start(visit: Visit) -> CarrierSet {
        CarrierSet {
            bits: bit(visit.carrier),
        }
    }
}
