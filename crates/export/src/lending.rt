// `screen::displayed_screen` and `border::tile`, which hand back a part of what they are lent (RULES 2.7). A part can't be handed back to C,
// so here they tell where it stands (specs/Parts), with no copying; none is the empty part.
ghost use Rattle.std.specs.Prelude.{◌≡◌};
ghost use Rattle.export_answers.specs.Coded.{optional};
ghost use Rattle.export.specs.Parts.{capture, tile_at};

#[unsafe(no_mangle)]
pub extern "C" fn sporedrift_displayed_screen<'a>(live: &'a [u8], frozen: &'a [u8], mode: u8) -> u32
    ensures { result ≡ optional (capture live.now frozen.now mode) }
{
    if screen::displayed_screen(live, frozen, mode).is_empty() {
        return export_answers::NONE;
    }
    export_answers::value(u32::from(mode == 1))
}

#[unsafe(no_mangle)]
pub extern "C" fn sporedrift_tile(tiles: &[u8], n: usize) -> u32
    ensures { result ≡ optional (tile_at tiles.now n) }
{
    if border::tile(tiles, n).is_empty() {
        return export_answers::NONE;
    }
    export_answers::value((n * 32) as u32)
}
