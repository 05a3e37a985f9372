// The attribute commands on the ninety packed bytes.
// Stays: four functions of two lines each. Tried with a helper that takes the command as a closure: it proves, and takes six lines for two.
ghost use Rattle.std.specs.Prelude.{◌≡◌, length};
ghost use Rattle.parts.specs.Parts.{map_bytes};
ghost use Rattle.attribute_map.specs.Data.{Whole};
ghost use Rattle.commands.specs.Maps.{attr_blk, attr_lin, attr_div, attr_chr};

pub fn attr_blk(map: &mut [u8], d: &[u8])
    requires { (length map.old ≡ map_bytes) × Whole d.now }
    ensures { map.new ≡ attr_blk d.now map.old }
{
    let m = attribute_blocks::attr_blk(attribute_map::unpack(map), d);
    attribute_map::pack(m, map);
}

pub fn attr_lin(map: &mut [u8], d: &[u8])
    requires { (length map.old ≡ map_bytes) × Whole d.now }
    ensures { map.new ≡ attr_lin d.now map.old }
{
    let m = attributes::attr_lin(attribute_map::unpack(map), d);
    attribute_map::pack(m, map);
}

pub fn attr_div(map: &mut [u8], d: &[u8])
    requires { (length map.old ≡ map_bytes) × Whole d.now }
    ensures { map.new ≡ attr_div d.now }
{
    let m = attributes::attr_div(attribute_map::unpack(map), d);
    attribute_map::pack(m, map);
}

pub fn attr_chr(map: &mut [u8], d: &[u8])
    requires { (length map.old ≡ map_bytes) × Whole d.now }
    ensures { map.new ≡ attr_chr d.now map.old }
{
    let m = attribute_cells::attr_chr(attribute_map::unpack(map), d);
    attribute_map::pack(m, map);
}
