// The tests that make a block valid, V1 to V6, RULES 1.6 to 1.11, each by its own name; V3 is the crate `block_receiver`.
// The meaning is `Valid` in the crate `layout`. All of them together, and what is told where one fails, are the crate `block_broken`.
#![tactic(auto)]

ghost use Rattle.std.specs.Prelude.{◌≡◌, true, cond, length};
ghost use Rattle.parts.specs.Parts.{block_bytes};
ghost use Rattle.layout.specs.Block.{is_set};
ghost use Rattle.layout.specs.Valid as spec;

use bits::all_zero;

// What V1 to V5 are tested of, and what their bytes are looked for in: a block, or its front alone, which is all before the palettes.
#[derive(Clone, Copy)]
pub struct Front<'a> {
    pub bytes: &'a [u8],
    pub ghost fronted: { spec.Fronted bytes.now },
}

// Mask mode and joypad mask are 3 or less, and the mask has every bit that the index has.
pub fn v1(front: Front) -> bool
    ensures { result ≡ spec.v1 front.entry.bytes.now }
{
    let pads = front.bytes[parts::PADS];
    let index = front.bytes[parts::INDEX];
    front.bytes[parts::MASK] <= 3 && pads <= 3 && index & pads == index
}

// The four flags are 0 or 1, both lines are high only if P15 is, and the spare bytes hold nothing.
pub fn v2(front: Front) -> bool
    ensures { result ≡ spec.v2 front.entry.bytes.now }
{
    front.bytes[parts::P15] <= 1
        && front.bytes[parts::BOTH] <= 1
        && front.bytes[parts::PRESET_ON] <= 1
        && front.bytes[parts::FROZEN_ON] <= 1
        && lines_agree(front.bytes[parts::P15], front.bytes[parts::BOTH])
        && all_zero(&front.bytes[parts::SPARE..parts::PACKET])
}

// Both lines are high only if P15 is.
pub fn lines_agree(p15: u8, both: u8) -> bool
    ensures { result ≡ cond (is_set both) (is_set p15) true }
{
    both != 1 || p15 == 1
}

// Nothing is pending, or one of the five kinds is, with 1, 2 or 3 screens to go.
pub fn v4(front: Front) -> bool
    ensures { result ≡ spec.v4 front.entry.bytes.now }
{
    let kind = front.bytes[parts::KIND];
    match front.bytes[parts::COUNTDOWN] {
        0 => kind == 0,
        1..=3 => kind <= 4,
        _ => false,
    }
}

// A preset that is not in force is all zeros.
pub fn v5(front: Front) -> bool
    ensures { result ≡ spec.v5 front.entry.bytes.now }
{
    front.bytes[parts::PRESET_ON] != 0 || all_zero(&front.bytes[parts::PRESET..parts::PALETTES])
}

// A frozen capture must be there in mode 1, may be there in mode 0, is not there in modes 2 and 3, and is then all zeros.
pub fn v6(block: &[u8]) -> bool
    requires { length block.now ≡ block_bytes }
    ensures { result ≡ spec.v6 block.now }
{
    let frozen_on = block[parts::FROZEN_ON];
    mask_allows(block[parts::MASK], frozen_on)
        && (frozen_on != 0 || all_zero(&block[parts::FROZEN..parts::TILES]))
}

// Whether a mask mode and byte 12 go together.
pub fn mask_allows(mask: u8, frozen_on: u8) -> bool
    ensures { result ≡ spec.mask_allows mask frozen_on }
{
    match mask {
        0 => true,
        1 => frozen_on == 1,
        _ => frozen_on == 0,
    }
}
