// The joypad index and its mask.
ghost use Rattle.std.specs.Prelude.{◌≡◌};
ghost use Rattle.commands.specs.Pads.{mlt_req};

#[derive(Clone, Copy)]
pub struct Pads {
    pub index: u8,
    pub mask: u8,
}

// MLT_REQ at any index: the request for mask 2, which names no number of pads, moves the counter on before it is masked.
pub fn mlt_req(index: u8, d1: u8) -> Pads
    ensures { result ≡ mlt_req d1 index }
{
    let mask = d1 & 3;
    let moved = if mask == 2 {
        index.wrapping_add(1)
    } else {
        index
    };
    Pads {
        index: moved & mask,
        mask,
    }
}
