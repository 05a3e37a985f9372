// Commands as pulses and back: the encoder, and the verdict whether a command conforms.
// RULES 7. Next door: one packet's pulses (`packet`), the rule of the verdict (`rule`). The meaning is in specs/,
// the round trip in proofs/Returns.
#![tactic(auto)]

ghost use Rattle.std.specs.Prelude.{◌≡◌};
ghost use Rattle.pulses.specs.Answer.{packets_answer};
ghost use Rattle.pulses.specs.Encode.{Encodes};
ghost use Rattle.pulses.specs.Verdict.{Judges};

use packet::encode_packets;
use receiver::packet_count;
use refusal::Refusal;

pub mod packet;
pub mod rule;

// The pulses of a command, at the front of `out`. Refused are a malformed command (5) and an output that is too short for them (6).
pub fn encode(command: &[u8], out: &mut [u8]) -> Result<usize, Refusal>
    ensures { Encodes command.now out.old result out.new }
{
    let n = packets_of(command)?;
    if out.len() < 260 * n {
        return Err(Refusal::Output);
    }
    encode_packets(command, n, out);
    Ok(260 * n)
}

// Whether a command conforms. Refused is a malformed one (5).
pub fn verdict(command: &[u8]) -> Result<bool, Refusal>
    ensures { Judges command.now result }
{
    let n = packets_of(command)?;
    Ok(rule::conforms(command, n))
}

// The packets of a command.
fn packets_of(command: &[u8]) -> Result<usize, Refusal>
    ensures { result ≡ packets_answer command.now }
{
    if let Some(first) = command.first() {
        let n = usize::from(packet_count(*first));
        if n > 0 && command.len() == 16 * n {
            return Ok(n);
        }
    }
    Err(Refusal::Command)
}
