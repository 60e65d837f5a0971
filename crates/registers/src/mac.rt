// The MAC registers by number: 1 MAC_CR, 2 ADDRH, 3 ADDRL, 4 HASHH, 5 HASHL (01, Registers).
ghost use Rattle.std.specs.Prelude.{◌≡◌};
ghost use Rattle.paper.specs.Registers.{read_register, write_register};
ghost use Rattle.registers.specs.Mac.{number_of, Numbered, checked, read_of, written_of};

use paper::{Refusal, Registers};

// A MAC register.
#[derive(Clone, Copy)]
enum MacRegister {
    MacCr,
    Addrh,
    Addrl,
    Hashh,
    Hashl,
}

// The register of a number; no such register for any other.
impl TryFrom<u32> for MacRegister {
    type Error = Refusal;

    ghost try_from_gives = { Numbered };

    fn try_from(k: u32) -> Result<Self, Refusal> {
        match k {
            1 => Ok(MacRegister::MacCr),
            2 => Ok(MacRegister::Addrh),
            3 => Ok(MacRegister::Addrl),
            4 => Ok(MacRegister::Hashh),
            5 => Ok(MacRegister::Hashl),
            _ => Err(Refusal::NoRegister),
        }
    }
}

impl MacRegister {
    // A write of v is no bad value.
    fn check(self, v: u32) -> Result<(), Refusal>
        ensures { result ≡ checked (number_of self) v }
    {
        let good = match self {
            MacRegister::MacCr => entry::values::good_maccr(v),
            MacRegister::Addrh => entry::values::good_addrh(v),
            _ => true,
        };
        if good { Ok(()) } else { Err(Refusal::BadValue) }
    }

    // The register, as stored.
    #[tactic(auto, unfolding(paper::specs::Registers::read_register))]
    fn read(self, r: Registers) -> u32
        ensures { result ≡ read_register (number_of self) r }
    {
        match self {
            MacRegister::MacCr => r.maccr,
            MacRegister::Addrh => r.addrh,
            MacRegister::Addrl => r.addrl,
            MacRegister::Hashh => r.hashh,
            MacRegister::Hashl => r.hashl,
        }
    }

    // The registers after a write of v.
    #[tactic(auto, unfolding(paper::specs::Registers::write_register))]
    fn written(self, v: u32, r: Registers) -> Registers
        ensures { result ≡ write_register (number_of self) v r }
    {
        match self {
            MacRegister::MacCr => Registers { maccr: v, ..r },
            MacRegister::Addrh => Registers { addrh: v, ..r },
            MacRegister::Addrl => Registers { addrl: v, ..r },
            MacRegister::Hashh => Registers { hashh: v, ..r },
            MacRegister::Hashl => Registers { hashl: v, ..r },
        }
    }
}

// Register k, as stored; or the refusal of a read.
pub fn read(k: u32, r: Registers) -> Result<u32, Refusal>
    ensures { result ≡ read_of k r }
{
    Ok(MacRegister::try_from(k)?.read(r))
}

// The registers after a write of v to register k; or the refusal of it.
pub fn written(k: u32, v: u32, r: Registers) -> Result<Registers, Refusal>
    ensures { result ≡ written_of k v r }
{
    let register = MacRegister::try_from(k)?;
    register.check(v)?;
    Ok(register.written(v, r))
}
