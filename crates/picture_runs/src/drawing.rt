// What a run is drawn from: parts of a block, lent, and tables that are made once for as many rows as are drawn from them.
ghost use Rattle.picture_runs.specs.Runs.{Lent};

#[derive(Clone, Copy)]
pub struct PictureParts<'a> {
    pub tiles: &'a [u8],
    pub map: &'a [u8],
    pub attributes: &'a [u8],
    pub screen: &'a [u8],
    pub ghost lent: { Lent tiles.now map.now attributes.now screen.now },
}

// Plane bytes spread over lanes, the border's 48 colours, and the screen's, four a palette. The colours are words, as
// the picture of RULES 6.6 has them; the prover does not walk a slice of structs.
// Stays: what they hold is a clause, `Tables`, and no ghost field: they are filled in place, before which it isn't so.
#[derive(Drop)]
pub struct PictureTables {
    pub spreads: [u32; 512],
    pub border: [u16; 48],
    pub game: [u16; 16],
}
