// The register values that a write accepts (01, Registers; Refusal numbers: "registers as a write accepts").
ghost use Rattle.std.specs.Prelude.{◌≡◌};
ghost use Rattle.paper.specs.Registers.{good_n, good_addrh, good_maccr, good_registers};

use paper::Registers;
use words::fields;

// 01: "TX_FIF_SZ is n, 2 to 14"
pub fn good_n(n: u32) -> bool
    ensures { result ≡ good_n n }
{
    (2..=14).contains(&n)
}

// 01: "so is an ADDRH above FFFFh"
pub fn good_addrh(v: u32) -> bool
    ensures { result ≡ good_addrh v }
{
    v <= 0xFFFF
}

// A value for MAC_CR has carried bits only and a defined setting (01: "Any other bit set is a bad value", "writing one of the other 17 is a bad value").
pub fn good_maccr(v: u32) -> bool
    ensures { result ≡ good_maccr v }
{
    let carried = fields::only_carried(v);
    let k = fields::setting_number(v);
    carried & filter::setting_at(k as usize).is_some()
}

// Each register holds what a write accepts; ADDRL, HASHH, HASHL and RX_DROP hold any word.
#[tactic(auto, unfolding(paper::specs::Registers::good_registers))]
pub fn good_registers(r: Registers) -> bool
    ensures { result ≡ good_registers r }
{
    good_n(r.n) & good_maccr(r.maccr) & good_addrh(r.addrh)
}
