// The pulses of a packet, and of several. RULES 7.1. The meaning is in specs/Encode.
ghost use Rattle.std.specs.Prelude.{◌≡◌, ◌++◌, ◌*◌, ◌/◌, ◌%◌, ◌^◌, ◌≤◌, ◌<◌, length, drop};
ghost use Rattle.pulses.specs.Encode.{pulse, packet_pulses, pulses_of};

// The pulse of bit k of a byte.
pub fn pulse_of(byte: u8, k: u8) -> u8
    requires { k < 8 }
    ensures { result ≡ pulse (byte / 2 ^ k % 2) }
{
    if byte >> k & 1 == 0 { 0x20 } else { 0x10 }
}

// The 260 writes that send a packet.
pub fn encode_packet(packet: &[u8], out: &mut [u8])
    requires { (length packet.now ≡ 16) × (length out.old ≡ 260) }
    ensures { out.new ≡ packet_pulses packet.now }
{
    out[0] = 0x00;
    out[1] = 0x30;
    for k in 0..128 {
        out[2 + 2 * k] = pulse_of(packet[k >> 3], (k & 7) as u8);
        out[3 + 2 * k] = 0x30;
    }
    out[258] = 0x20;
    out[259] = 0x30;
}

// The writes of n packets, one after the other.
// Stays: n beside the command. Its contract allows a longer command, and may not ask more.
pub fn encode_packets(command: &[u8], n: usize, out: &mut [u8])
    requires { (n < 8) × ((16 * n ≤ length command.now) × (260 * n ≤ length out.old)) }
    ensures { out.new ≡ pulses_of n command.now ++ drop (260 * n) out.old }
{
    for p in 0..n {
        let from = 16 * p;
        let to = 260 * p;
        encode_packet(&command[from..from + 16], &mut out[to..to + 260]);
    }
}
