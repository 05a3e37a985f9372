// What commands do to each part, and which command it is. (A module may not have the name of a crate that is used.)
ghost use Rattle.std.specs.Prelude.{◌≡◌, ◌≤◌, ◌<◌, length};
ghost use Rattle.parts.specs.Parts.{palettes_bytes, map_bytes, system_bytes, files_bytes};
ghost use Rattle.attribute_map.specs.Data.{Whole};
ghost use Rattle.commands.specs.Files.{attr_set_map, pal_set_map};
ghost use Rattle.commands.specs.Maps.{attr_blk, attr_lin, attr_div, attr_chr};
ghost use Rattle.palettes.specs.Palettes.{pal_pair, pal_set};

use commands::{Command, FixedCommand, PlainCommand};

#[unsafe(no_mangle)]
pub extern "C" fn probe_attr_blk(map: &mut [u8], d: &[u8])
    requires { (length map.old ≡ map_bytes) × Whole d.now }
    ensures { map.new ≡ attr_blk d.now map.old }
{
    commands::attr_blk(map, d);
}

#[unsafe(no_mangle)]
pub extern "C" fn probe_attr_lin(map: &mut [u8], d: &[u8])
    requires { (length map.old ≡ map_bytes) × Whole d.now }
    ensures { map.new ≡ attr_lin d.now map.old }
{
    commands::attr_lin(map, d);
}

#[unsafe(no_mangle)]
pub extern "C" fn probe_attr_div(map: &mut [u8], d: &[u8])
    requires { (length map.old ≡ map_bytes) × Whole d.now }
    ensures { map.new ≡ attr_div d.now }
{
    commands::attr_div(map, d);
}

#[unsafe(no_mangle)]
pub extern "C" fn probe_attr_chr(map: &mut [u8], d: &[u8])
    requires { (length map.old ≡ map_bytes) × Whole d.now }
    ensures { map.new ≡ attr_chr d.now map.old }
{
    commands::attr_chr(map, d);
}

#[unsafe(no_mangle)]
pub extern "C" fn probe_attr_set_map(map: &mut [u8], files: &[u8], flags: u8)
    requires { (length map.old ≡ map_bytes) × (length files.now ≡ files_bytes) }
    ensures { map.new ≡ attr_set_map flags files.now map.old }
{
    commands::attr_set_map(map, files, flags);
}

#[unsafe(no_mangle)]
pub extern "C" fn probe_pal_set_map(map: &mut [u8], files: &[u8], flags: u8)
    requires { (length map.old ≡ map_bytes) × (length files.now ≡ files_bytes) }
    ensures { map.new ≡ pal_set_map flags files.now map.old }
{
    commands::pal_set_map(map, files, flags);
}

#[unsafe(no_mangle)]
pub extern "C" fn probe_pal_pair(palettes: &mut [u8], a: usize, b: usize, d: &[u8])
    requires { (length palettes.old ≡ palettes_bytes) × (16 ≤ length d.now) × (a < 4) × (b < 4) }
    ensures { palettes.new ≡ pal_pair a b d.now palettes.old }
{
    palettes::pal_pair(palettes, a, b, d);
}

#[unsafe(no_mangle)]
pub extern "C" fn probe_pal_set(palettes: &mut [u8], system: &[u8], d: &[u8])
    requires { (length palettes.old ≡ palettes_bytes) × (length system.now ≡ system_bytes) × (16 ≤ length d.now) }
    ensures { palettes.new ≡ pal_set d.now system.now }
{
    palettes::pal_set(palettes, system, d);
}

// The index in the low byte, the mask in the high one.
#[unsafe(no_mangle)]
pub extern "C" fn probe_mlt_req(index: u8, d1: u8) -> u16 {
    let pads = commands::mlt_req(index, d1);
    bits::word(pads.index, pads.mask)
}

// Which command it is: a fixed one from 100 hex on, what it holds in the low byte's low half.
#[unsafe(no_mangle)]
pub extern "C" fn probe_decode(d: &[u8]) -> u16
    requires { 16 ≤ length d.now }
{
    match commands::decode(d) {
        Command::Plain(c) => plain_number(c),
        Command::Fixed(c) => fixed_number(c),
    }
}

fn plain_number(c: PlainCommand) -> u16 {
    match c {
        PlainCommand::PalPair(0, 1) => 0x01,
        PlainCommand::PalPair(0, _) => 0x03,
        PlainCommand::PalPair(1, _) => 0x12,
        PlainCommand::PalPair(_, _) => 0x23,
        PlainCommand::AttrBlk => 0x40,
        PlainCommand::AttrLin => 0x50,
        PlainCommand::AttrDiv => 0x60,
        PlainCommand::AttrChr => 0x70,
        PlainCommand::MltReq(_) => 0x80,
        PlainCommand::MaskEn(_) => 0x90,
        PlainCommand::Nothing => 0xA0,
    }
}

fn fixed_number(c: FixedCommand) -> u16 {
    match c {
        FixedCommand::PalSet => 0x100,
        FixedCommand::AttrSet => 0x110,
        FixedCommand::Freeze => 0x120,
        FixedCommand::Transfer(t) => bits::word(0x30 | t.number(), 1),
    }
}
