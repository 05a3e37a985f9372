// The packet receiver, by value: what a write to the joypad register does to the packet that is coming in.
// RULES 3.3 to 3.8; Pan Docs, Command packet transfers. Next door: the packets that are in (`store`), the lines (`lines`).
// The meaning is in specs/Receive; which receivers are valid, V3, in specs/Valid.
#![tactic(auto)]

ghost use Rattle.std.specs.Prelude.{◌≡◌, ◌<◌, true};
ghost use Rattle.receiver.specs.Count.{count_of};
ghost use Rattle.receiver.specs.Lines.{pulse_of};
ghost use Rattle.receiver.specs.Receive.{rx_of, step_of, idle, restarted, data_bit, quiet, kept, stopped, clocked, after_pulse, stage_number, Sound};

pub mod lines;
pub mod store;

#[derive(Clone, Copy, Debug, PartialEq, Eq)]
pub enum Stage {
    Idle,
    Receiving,
    Awaiting,
}

// Stays: the packet of sixteen bytes is two words among the other fields, which stay in registers so that a data bit is one shift: as arrays it took ten
// times as long.
#[derive(Clone, Copy)]
pub struct Receiver {
    pub stage: Stage,
    pub expected: u8,
    pub received: u8,
    pub bits: u8,
    pub lo: u64,
    pub hi: u64,
}

// What a pulse completes: nothing; a packet, for this place of the store; or a command of this many packets, the last at hand.
// Stays: three cases. A packet that waits in the store is neither nothing nor a command.
#[derive(Clone, Copy)]
pub enum Done {
    Nothing,
    Packet(u8),
    Command(u8),
}

// The receiver after a pulse, and what the pulse completed.
#[derive(Clone, Copy)]
pub struct Written {
    pub next: Receiver,
    pub done: Done,
}

// The packets that a command spans, from its first byte. The boot ROM's header packets (F1 to FB hex) are single packets whose
// low bits number them.
pub fn packet_count(first: u8) -> u8
    ensures { result ≡ count_of first }
{
    if first >> 3 >= 0x1E { 1 } else { first & 0x07 }
}

// The stage by its number in the block (RULES 1.4).
// Stays: its contract says which number, where a conversion by `From` says it by a ghost member alone, and the runs against the Rust call it by this name.
pub fn stage_number(stage: Stage) -> u8
    ensures { result ≡ stage_number stage }
{
    match stage {
        Stage::Idle => 0,
        Stage::Receiving => 1,
        Stage::Awaiting => 2,
    }
}

impl Receiver {
    pub fn new() -> Self
        ensures { rx_of result ≡ idle }
    {
        Self {
            stage: Stage::Idle,
            expected: 0,
            received: 0,
            bits: 0,
            lo: 0,
            hi: 0,
        }
    }

    // The start pulse: the packet in flight is dropped, and the earlier ones stay.
    pub fn restart(self) -> Self
        ensures { rx_of result ≡ restarted (rx_of self) }
    {
        let earlier = self.received;
        Self {
            stage: Stage::Receiving,
            expected: self.expected,
            received: earlier,
            bits: 0,
            lo: 0,
            hi: 0,
        }
    }

    // A data pulse, least significant bit first. Written out field by field: the struct then stays in registers.
    pub fn data_bit(self, one: u8) -> Self
        requires { Sound (rx_of self) × ((self.bits < 128) × (one < 2)) }
        ensures { rx_of result ≡ data_bit (rx_of self) one }
    {
        let bits = self.bits;
        if bits < 64 {
            Self {
                stage: self.stage,
                expected: self.expected,
                received: self.received,
                bits: bits + 1,
                lo: self.lo | u64::from(one) << bits,
                hi: self.hi,
            }
        } else {
            Self {
                stage: self.stage,
                expected: self.expected,
                received: self.received,
                bits: bits + 1,
                lo: self.lo,
                hi: self.hi | u64::from(one) << (bits - 64),
            }
        }
    }

    // A pulse that completes nothing.
    pub fn quiet(self) -> Written
        ensures { step_of result ≡ quiet (rx_of self) }
    {
        Written {
            next: self,
            done: Done::Nothing,
        }
    }

    // The packet is in. If all are, the command is complete, else the next packet is awaited.
    pub fn keep(self, expected: u8) -> Written
        requires { self.received < 7 }
        ensures { step_of result ≡ kept (rx_of self) expected }
    {
        let received = self.received;
        let so_far = received + 1;
        if so_far >= expected {
            Written {
                next: Receiver::new(),
                done: Done::Command(so_far),
            }
        } else {
            Written {
                next: Receiver {
                    stage: Stage::Awaiting,
                    expected,
                    received: so_far,
                    bits: 0,
                    lo: 0,
                    hi: 0,
                },
                done: Done::Packet(received),
            }
        }
    }

    // The stop pulse: the first packet tells how many there are, and a count of 0 ends the command.
    pub fn stop(self) -> Written
        requires { self.received < 7 }
        ensures { step_of result ≡ stopped (rx_of self) }
    {
        if self.received == 0 {
            let count = packet_count((self.lo & 0xFF) as u8);
            if count == 0 {
                Receiver::new().quiet()
            } else {
                self.keep(count)
            }
        } else {
            self.keep(self.expected)
        }
    }

    // One line low after a release, while a packet is coming in: a data bit, or the stop pulse where all 128 are in.
    pub fn clock(self, one: u8) -> Written
        requires { Sound (rx_of self) × (one < 2) }
        ensures { step_of result ≡ clocked (rx_of self) one true }
    {
        if self.bits < 128 {
            self.data_bit(one).quiet()
        } else {
            self.stop()
        }
    }

    // A write to the joypad register; `released` is whether both lines were high before it. A select change with no release since
    // the last pulse doesn't clock the receiver: this keeps ordinary polling out of packets.
    // The tests that nearly always go the same way come first, and none follows the data.
    pub fn write(self, value: u8, released: bool) -> Written
        requires { Sound (rx_of self) }
        ensures { step_of result ≡ after_pulse (rx_of self) (pulse_of value) released }
    {
        let lines = value & 0x30;
        if lines == 0x30 {
            return self.quiet();
        }
        if lines == 0 {
            return self.restart().quiet();
        }
        if released && self.stage == Stage::Receiving {
            self.clock(value >> 4 & 1)
        } else {
            self.quiet()
        }
    }
}
