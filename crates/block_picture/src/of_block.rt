// The parts of a valid block that the picture is drawn from, lent as they stand (specs/Drawn, `parts_of`).
// Stays: a function for each part. They differ in a range and a length alone, but each contract names its own field, which a const would hide.
ghost use Rattle.std.specs.Prelude.{◌≡◌, length};
ghost use Rattle.parts.specs.Parts.{preset_bytes, palettes_bytes, map_bytes, capture_bytes, tiles_bytes, border_map_bytes, border_palettes_bytes};
ghost use Rattle.layout.specs.Block.{load};
ghost use Rattle.layout.specs.Valid.{Valid};
ghost use Rattle.block_picture.specs.Drawn.{parts_of};

use picture_runs::drawing::PictureParts;
use screen::Colours;

// A valid block, lent: the contracts of what looks at one need not say again that it is valid.
#[derive(Clone, Copy)]
pub struct ValidBlock<'a> {
    pub bytes: &'a [u8],
    pub ghost valid: { Valid bytes.now },
}

impl<'a> ValidBlock<'a> {
    // What the colours of the screen come from.
    pub fn colours(self) -> Colours<'a>
        ensures of_palettes { (result.palettes.now ≡ (parts_of (load self.entry.bytes.now)).palettes) × (result.preset.now ≡ (parts_of (load self.entry.bytes.now)).preset) }
        ensures of_byte { result.in_force ≡ (parts_of (load self.entry.bytes.now)).in_force }
    {
        Colours {
            palettes: self.palettes(),
            preset: self.preset(),
            in_force: self.in_force(),
        }
    }

    // What the runs of a row are drawn from.
    pub fn drawn(self) -> PictureParts<'a>
        ensures of_border { (result.tiles.now ≡ (parts_of (load self.entry.bytes.now)).tiles) × (result.map.now ≡ (parts_of (load self.entry.bytes.now)).map) }
        ensures of_screen { (result.attributes.now ≡ (parts_of (load self.entry.bytes.now)).attributes) × (result.screen.now ≡ (parts_of (load self.entry.bytes.now)).screen) }
    {
        PictureParts {
            tiles: self.tiles(),
            map: self.map(),
            attributes: self.attributes(),
            screen: self.shown(),
        }
    }

    pub fn palettes(self) -> &'a [u8]
        ensures { (result.now ≡ (parts_of (load self.entry.bytes.now)).palettes) × (length result.now ≡ palettes_bytes) }
    {
        &self.bytes[parts::PALETTES..parts::MAP]
    }

    pub fn preset(self) -> &'a [u8]
        ensures { (result.now ≡ (parts_of (load self.entry.bytes.now)).preset) × (length result.now ≡ preset_bytes) }
    {
        &self.bytes[parts::PRESET..parts::PALETTES]
    }

    pub fn in_force(self) -> bool
        ensures { result ≡ (parts_of (load self.entry.bytes.now)).in_force }
    {
        self.bytes[parts::PRESET_ON] == 1
    }

    pub fn attributes(self) -> &'a [u8]
        ensures { (result.now ≡ (parts_of (load self.entry.bytes.now)).attributes) × (length result.now ≡ map_bytes) }
    {
        &self.bytes[parts::MAP..parts::SYSTEM]
    }

    pub fn mode(self) -> u8
        ensures { result ≡ (parts_of (load self.entry.bytes.now)).mode }
    {
        self.bytes[parts::MASK]
    }

    // The capture that is displayed.
    pub fn shown(self) -> &'a [u8]
        ensures { (result.now ≡ (parts_of (load self.entry.bytes.now)).screen) × (length result.now ≡ capture_bytes) }
    {
        screen::displayed_screen(
            &self.bytes[parts::LIVE..parts::FROZEN],
            &self.bytes[parts::FROZEN..parts::TILES],
            self.mode(),
        )
    }

    pub fn tiles(self) -> &'a [u8]
        ensures { (result.now ≡ (parts_of (load self.entry.bytes.now)).tiles) × (length result.now ≡ tiles_bytes) }
    {
        &self.bytes[parts::TILES..parts::BORDER_MAP]
    }

    pub fn map(self) -> &'a [u8]
        ensures { (result.now ≡ (parts_of (load self.entry.bytes.now)).map) × (length result.now ≡ border_map_bytes) }
    {
        &self.bytes[parts::BORDER_MAP..parts::BORDER_PALETTES]
    }

    pub fn borders(self) -> &'a [u8]
        ensures { (result.now ≡ (parts_of (load self.entry.bytes.now)).borders) × (length result.now ≡ border_palettes_bytes) }
    {
        &self.bytes[parts::BORDER_PALETTES..parts::BLOCK]
    }
}
