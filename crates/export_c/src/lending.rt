// Which capture is shown, and where a tile stands.
ghost use Rattle.std.specs.Prelude.{◌≡◌};
ghost use Rattle.export_answers.specs.Coded.{optional};
ghost use Rattle.export.specs.Parts.{capture, tile_at};

#[unsafe(no_mangle)]
pub extern "C" fn sporedrift_displayed_screen<'a>(live: &'a [u8], frozen: &'a [u8], mode: u8) -> u32
    ensures { result ≡ optional (capture live.now frozen.now mode) }
{
    export::lending::sporedrift_displayed_screen(live, frozen, mode)
}

#[unsafe(no_mangle)]
pub extern "C" fn sporedrift_tile(tiles: &[u8], n: usize) -> u32
    ensures { result ≡ optional (tile_at tiles.now n) }
{
    export::lending::sporedrift_tile(tiles, n)
}
