// A place in the writes, with the receiver and the lines there.
ghost use Rattle.std.specs.Prelude.{◌<◌};
ghost use Rattle.receiver.specs.Receive.{rx_of, Sound};

use receiver::Receiver;
use receiver_run::Lines;

#[derive(Clone, Copy)]
pub struct Fed {
    pub rx: Receiver,
    pub lines: Lines,
    pub at: usize,
    pub ghost sound: { Sound (rx_of rx) },
    pub ghost few: { lines.index < 255 },
}
