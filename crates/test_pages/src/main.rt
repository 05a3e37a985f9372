// The worked examples of pages as screens, RULES 5.6 and 5.7, run by the public calls. What is written is compared with the file `stdout`.
#![tactic(auto)]

mod carried;

fn main(rt: HostRuntime) {
    let stdout = rt.stdout();
    let mut block = [0u8; parts::BLOCK];
    carried::examples(stdout, &mut block);
}
