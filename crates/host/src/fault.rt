// Why a host's call did nothing, and the number that C is told.
ghost use Rattle.std.specs.Prelude.{◌≡◌};
ghost use Rattle.host.specs.declared.fault.Fault.TheVariants as F;
ghost use Rattle.host.specs.Fault.{number_of};

use tables::answer::Refusal;

#[derive(Clone, Copy, PartialEq, Eq)]
pub enum Fault {
    Refused(Refusal),
    Malformed, // numbers that name no call, rule or mark
}

impl From<Refusal> for Fault {
    ghost from_gives = { λ refusal fault. fault ≡ F.Refused refusal };

    fn from(refusal: Refusal) -> Self {
        Fault::Refused(refusal)
    }
}

impl From<Fault> for u8 {
    ghost from_gives = { λ fault number. number ≡ number_of fault };

    fn from(fault: Fault) -> u8 {
        match fault {
            Fault::Refused(refusal) => refusal.into(),
            Fault::Malformed => 100,
        }
    }
}
