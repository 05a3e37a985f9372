// The stored list of the Rust's answers, run. What is written is compared with the file `stdout`, which the Rust made by the same
// rounds (tools/oracle/README.md says how), so the port is held to the Rust where the Rust is not at hand. A round sends, shows and
// looks, and writes one line: its number, the first byte of its command, a digest of each kind of answer, and one of the whole block.
#![tactic(auto)]

mod digest;
mod looks;
mod rounds;
mod screens;
mod writes;

fn main(rt: HostRuntime) {
    let stdout = rt.stdout();
    let mut block = [0u8; parts::BLOCK];
    // a write that fails is passed over: what is missing is seen beside the file `stdout`
    let _ = stdout.println("round first writes screens looks block");
    rounds::all(stdout, &mut block);
}
