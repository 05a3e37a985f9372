// The worked examples of RULES 10, run on the unit by its public calls: one module a topic. What is written is compared with the file
// `stdout`.
#![tactic(auto)]

mod blocks;
mod emulator;
mod maps;
mod replays;
mod screens;
mod spans;
mod verdicts;

fn main(rt: HostRuntime) {
    let stdout = rt.stdout();
    let mut block = [0u8; parts::BLOCK];
    replays::examples(stdout, &mut block);
    maps::examples(stdout, &mut block);
    screens::examples(stdout, &mut block);
    blocks::examples(stdout, &mut block);
    emulator::examples(stdout, &mut block);
    verdicts::examples(stdout, &mut block);
}
