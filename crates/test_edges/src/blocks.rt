// Saved blocks that break a rule: a line each with the first that is broken and the lowest byte that breaks it, RULES 1.15; 0 where none is.
// Each is a fresh block with one byte or two of another value.
ghost use Rattle.std.specs.Prelude.{◌<◌};
ghost use Rattle.parts.specs.Parts.{block_bytes};

use std::io::Stdout;
use test_text::checked;

pub fn examples(stdout: Stdout, block: &mut [u8; parts::BLOCK]) {
    let _ = unit::post_boot(block);
    header(stdout, block);
    idle(stdout, block);
    parts_behind(stdout, block);
    receiving(stdout, block);
    awaiting(stdout, block);
}

// V1 and V2.
fn header(stdout: Stdout, block: &mut [u8; parts::BLOCK]) {
    damaged(stdout, block, parts::MASK, 4);
    damaged(stdout, block, parts::INDEX, 1);
    damaged(stdout, block, parts::PADS, 4);
    damaged(stdout, block, parts::P15, 0);
    damaged(stdout, block, parts::BOTH, 2);
    damaged(stdout, block, parts::SPARE + 2, 1);
}

// V3 of an idle receiver, and of one that is none.
fn idle(stdout: Stdout, block: &mut [u8; parts::BLOCK]) {
    damaged(stdout, block, parts::STAGE, 3);
    damaged(stdout, block, parts::BITS, 1);
    damaged(stdout, block, parts::PRESET - 1, 1);
}

// V4 to V6; of the live capture nothing is asked.
fn parts_behind(stdout: Stdout, block: &mut [u8; parts::BLOCK]) {
    damaged(stdout, block, parts::COUNTDOWN, 4);
    damaged(stdout, block, parts::KIND, 1);
    damaged(stdout, block, parts::PRESET_ON, 0);
    damaged(stdout, block, parts::MASK, 1);
    damaged(stdout, block, parts::TILES - 1, 1);
    damaged(stdout, block, parts::LIVE, 1);
}

// V3 while a packet is coming in, 12 bits of it.
fn receiving(stdout: Stdout, block: &mut [u8; parts::BLOCK]) {
    set(block, parts::STAGE, 1);
    damaged(stdout, block, parts::BITS, 129);
    set(block, parts::BITS, 12);
    damaged(stdout, block, parts::PACKET + 1, 16);
    damaged(stdout, block, parts::PACKET + 1, 15);
    set(block, parts::BITS, 0);
}

// V3 between two packets, of which the store tells none.
fn awaiting(stdout: Stdout, block: &mut [u8; parts::BLOCK]) {
    set(block, parts::STAGE, 2);
    damaged(stdout, block, parts::RECEIVED, 1);
    set(block, parts::EXPECTED, 1);
    damaged(stdout, block, parts::STORE, 1);
}

fn set(block: &mut [u8; parts::BLOCK], at: usize, value: u8)
    requires { at < block_bytes }
{
    block[at] = value;
}

fn damaged(stdout: Stdout, block: &mut [u8; parts::BLOCK], at: usize, value: u8)
    requires { at < block_bytes }
{
    let before = block[at];
    set(block, at, value);
    checked(stdout, unit::check(block));
    set(block, at, before);
}
