// The receive filter: the table of the 32 settings, and what it says of a frame (paper 01, An arriving frame, "Filter"). A frame is lent whole, of any length;
// the filter looks at its first six bytes, the destination.
#![tactic(auto)]

ghost use Rattle.std.specs.Prelude.{if◌then◌else◌, ◌≡◌, ◌<◌, get_or, take, None};
ghost use Rattle.paper.specs.Words.{bit, same};
ghost use Rattle.paper.specs.Registers.{settings, setting_of};
ghost use Rattle.paper.specs.Filter.{
  destination,
  is_broadcast,
  is_group,
  ours,
  in_hash,
  passes_rule,
  passes_setting,
  passes,
};

use paper::{Registers, Rule, Rules, Setting};
use words::bytes::byte_at;
use words::fields::{bit_is_set, setting_number};

// The pairs of rules in 01's table: that for group addresses, then that for individual ones, or one word for both.
const EQUAL: Setting = Some(Rules {
    group: Rule::Equal,
    individual: Rule::Equal,
});

const HASH_EQUAL: Setting = Some(Rules {
    group: Rule::Hash,
    individual: Rule::Equal,
});

const HASH: Setting = Some(Rules {
    group: Rule::Hash,
    individual: Rule::Hash,
});

const NOT_EQUAL: Setting = Some(Rules {
    group: Rule::NotEqual,
    individual: Rule::NotEqual,
});

const PASS: Setting = Some(Rules {
    group: Rule::Pass,
    individual: Rule::Pass,
});

const PASS_EQUAL: Setting = Some(Rules {
    group: Rule::Pass,
    individual: Rule::Equal,
});

const PASS_HASH: Setting = Some(Rules {
    group: Rule::Pass,
    individual: Rule::Hash,
});

// By (MCPAS, PRMS, INVFILT, HO, HPFILT), MCPAS the highest: the rules, or undefined. The first three stand above a line, the last two count along it.
pub const SETTINGS: [Setting; 32] = [
    // 0 0 0
    EQUAL, HASH_EQUAL, None, HASH,
    // 0 0 1
    NOT_EQUAL, None, None, None,
    // 0 1 0
    PASS, PASS, PASS, PASS,
    // 0 1 1
    None, None, None, None,
    // 1 0 0
    PASS_EQUAL, PASS_EQUAL, None, PASS_HASH,
    // 1 0 1
    None, None, None, None,
    // 1 1 0
    PASS, PASS, PASS, PASS,
    // 1 1 1
    None, None, None, None,
];

// The table as a static, which lies on no function's stack: a constant is laid there anew at each look-up.
static TABLE: [Setting; 32] = SETTINGS;

// The setting with number k.
#[tactic(auto, unfolding(paper::specs::Registers::settings))]
pub fn setting_at(k: usize) -> Setting
    requires { k < 32 }
    ensures { result ≡ get_or settings k None }
{
    TABLE[k]
}

// The setting of a MAC_CR.
pub fn setting_of(maccr: u32) -> Setting
    ensures { result ≡ setting_of maccr }
{
    setting_at(setting_number(maccr) as usize)
}

// 01: "Our address, in wire order, is ADDRL bits 7-0, 15-8, 23-16, 31-24, ADDRH bits 7-0, 15-8."
fn ours(r: Registers) -> [u8; 6]
    ensures { result ≡ ours r }
{
    let [a, b, c, d] = r.addrl.to_le_bytes();
    let [e, f, _, _] = r.addrh.to_le_bytes();
    [a, b, c, d, e, f]
}

// The destination of a frame: its first six bytes, or all that it has.
fn destination(frame: &[u8]) -> &[u8]
    ensures { result.now ≡ destination (take 14 frame.now) }
{
    &frame[..frame.len().min(6)]
}

// The destination of a frame is this address; that of a frame with fewer bytes is none. By arrays, whose length the compiler knows.
#[tactic(auto, using(crate::proofs::Address::same_bytes, crate::proofs::Address::same_shorter, crate::proofs::Address::destination_head))]
fn is_to(frame: &[u8], address: [u8; 6]) -> bool
    ensures { result ≡ same (destination (take 14 frame.now)) address }
{
    match frame.first_chunk::<6>() {
        Some(to) => *to == address,
        None => false,
    }
}

// 01: "Destination FFFFFFFFFFFFh".
pub fn is_broadcast(frame: &[u8]) -> bool
    ensures { result ≡ is_broadcast (take 14 frame.now) }
{
    is_to(frame, [0xFF; 6])
}

// 01: "A group address has bit 0 of its first byte set." A broadcast is one too.
pub fn is_group(frame: &[u8]) -> bool
    ensures { result ≡ is_group (take 14 frame.now) }
{
    bit_is_set(0, u32::from(byte_at(frame, 0)))
}

// The destination is our address.
pub fn is_ours(r: Registers, frame: &[u8]) -> bool
    ensures { result ≡ same (destination (take 14 frame.now)) (ours r) }
{
    is_to(frame, ours(r))
}

// 01: "the highest chooses HASHH (1) or HASHL (0)".
fn hash_word(r: Registers, hash: u32) -> u32
    ensures { result ≡ (if bit 5 hash then r.hashh else r.hashl) }
{
    if bit_is_set(5, hash) {
        r.hashh
    } else {
        r.hashl
    }
}

// 01: "the other five, x^30 the highest, number the bit, 0 to 31; pass if it is 1".
pub fn in_hash(r: Registers, frame: &[u8]) -> bool
    ensures { result ≡ in_hash r (destination (take 14 frame.now)) }
{
    let hash = checksum::hash_of(destination(frame));
    bit_is_set(hash % 32, hash_word(r, hash))
}

// The destination passes under one rule of the table.
// Registers and frame stay two arguments of this and the like, as in paper's definitions: a struct of both would only be taken apart again.
#[tactic(auto, unfolding(paper::specs::Filter::passes_rule))]
pub fn passes_rule(rule: Rule, r: Registers, frame: &[u8]) -> bool
    ensures { result ≡ passes_rule rule r (destination (take 14 frame.now)) }
{
    match rule {
        Rule::Equal => is_ours(r, frame),
        Rule::NotEqual => !is_ours(r, frame),
        Rule::Hash => in_hash(r, frame),
        Rule::Pass => true,
    }
}

// The destination, if no broadcast, passes under a setting: by the rule for group addresses, or by that for individual ones. None passes where the setting
// is undefined.
#[tactic(auto, unfolding(paper::specs::Filter::passes_setting))]
fn passes_setting(setting: Setting, r: Registers, frame: &[u8]) -> bool
    ensures { result ≡ passes_setting setting r (take 14 frame.now) }
{
    let Some(rules) = setting else {
        return false;
    };
    let rule = if is_group(frame) {
        rules.group
    } else {
        rules.individual
    };
    passes_rule(rule, r, frame)
}

// The filter says yes (01: "Destination FFFFFFFFFFFFh passes exactly when BCAST is clear, in every mode (ours). Otherwise, by .. the setting").
#[tactic(auto, unfolding(paper::specs::Filter::passes))]
pub fn passes(r: Registers, frame: &[u8]) -> bool
    ensures { result ≡ passes r (take 14 frame.now) }
{
    if is_broadcast(frame) {
        return !bit_is_set(Registers::BCAST, r.maccr);
    }
    passes_setting(setting_of(r.maccr), r, frame)
}
