// Which command it is, from its bytes alone. Plain and fixed are told apart here and nowhere else.
ghost use Rattle.std.specs.Prelude.{◌≡◌, ℕ, ◌≤◌, List, length};
ghost use Rattle.commands.specs.Command.{fixed, transfer, masking, decode};
ghost use Rattle.transfer.specs.declared.pending.Transfer.TheVariants.{BorderTiles};
ghost use Rattle.commands.specs.Told.{told};

use transfer::pending::Transfer;

// What reads and changes nothing that screens change.
// Stays: `Nothing` is a command as the others, which `decode` tells of most codes.
#[derive(Clone, Copy)]
pub enum PlainCommand {
    PalPair(usize, usize),
    AttrBlk,
    AttrLin,
    AttrDiv,
    AttrChr,
    MltReq(u8),
    MaskEn(u8),
    Nothing,
}

// What reads the system palettes, the files or the live capture, or sets the pending transfer.
#[derive(Clone, Copy)]
pub enum FixedCommand {
    PalSet,
    AttrSet,
    Freeze,
    Transfer(Transfer),
}

#[derive(Clone, Copy)]
pub enum Command {
    Plain(PlainCommand),
    Fixed(FixedCommand),
}

pub fn decode(d: &[u8]) -> Command
    requires { 16 ≤ length d.now }
    ensures { told result d.now ≡ decode d.now }
{
    match d[0] >> 3 {
        0x00 => Command::Plain(PlainCommand::PalPair(0, 1)),
        0x01 => Command::Plain(PlainCommand::PalPair(2, 3)),
        0x02 => Command::Plain(PlainCommand::PalPair(0, 3)),
        0x03 => Command::Plain(PlainCommand::PalPair(1, 2)),
        0x04 => Command::Plain(PlainCommand::AttrBlk),
        0x05 => Command::Plain(PlainCommand::AttrLin),
        0x06 => Command::Plain(PlainCommand::AttrDiv),
        0x07 => Command::Plain(PlainCommand::AttrChr),
        0x0A => Command::Fixed(FixedCommand::PalSet),
        0x0B => Command::Fixed(FixedCommand::Transfer(Transfer::Palettes)),
        0x11 => Command::Plain(PlainCommand::MltReq(d[1])),
        0x13 => tiles(d[1] & 1 != 0),
        0x14 => Command::Fixed(FixedCommand::Transfer(Transfer::BorderMap)),
        0x15 => Command::Fixed(FixedCommand::Transfer(Transfer::Attributes)),
        0x16 => Command::Fixed(FixedCommand::AttrSet),
        0x17 => masking(d[1] & 3),
        _ => Command::Plain(PlainCommand::Nothing),
    }
}

// A freeze copies the live capture; the other modes look at nothing.
// Stays: the mode as a number, as the definition `masking` takes it: it is the byte of the block (RULES 2.7).
fn masking(mode: u8) -> Command
    ensures { (d : List ℕ) → told result d ≡ masking mode }
{
    if mode == 1 {
        Command::Fixed(FixedCommand::Freeze)
    } else {
        Command::Plain(PlainCommand::MaskEn(mode))
    }
}

fn tiles(upper_half: bool) -> Command
    ensures { (d : List ℕ) → told result d ≡ fixed (transfer (BorderTiles upper_half)) }
{
    Command::Fixed(FixedCommand::Transfer(Transfer::BorderTiles { upper_half }))
}
