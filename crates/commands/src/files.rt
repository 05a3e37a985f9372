// The packed attribute map after a command that asks for a file.
ghost use Rattle.std.specs.Prelude.{◌≡◌, length};
ghost use Rattle.parts.specs.Parts.{map_bytes, files_bytes};
ghost use Rattle.commands.specs.Files.{attr_set_map, pal_set_map};

// PAL_SET, with its byte d9: bit 7 asks for the file.
pub fn pal_set_map(map: &mut [u8], files: &[u8], flags: u8)
    requires { (length map.old ≡ map_bytes) × (length files.now ≡ files_bytes) }
    ensures { map.new ≡ pal_set_map flags files.now map.old }
{
    if flags & 0x80 != 0 {
        attr_set_map(map, files, flags);
    }
}

// ATTR_SET, with its byte d1: the file in its low six bits, if there is one.
pub fn attr_set_map(map: &mut [u8], files: &[u8], flags: u8)
    requires { (length map.old ≡ map_bytes) × (length files.now ≡ files_bytes) }
    ensures { map.new ≡ attr_set_map flags files.now map.old }
{
    let n = usize::from(flags & 0x3F);
    if n < 45 {
        let at = parts::MAP_BYTES * n;
        bits::put(map, 0, &files[at..at + parts::MAP_BYTES]);
    }
}
