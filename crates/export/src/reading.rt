// A line of a log (the crate `log_line`), and which version of the calls this is.
ghost use Rattle.std.specs.Prelude.{◌≡◌};
ghost use Rattle.log_line.specs.Calls.{line_answer, line_bytes};
ghost use Rattle.export_answers.specs.Coded.{coded, value, content};

// 0.4.0: 65,536 times the first number, 256 times the second, and the third. tools/version holds it to the file VERSION.
const VERSION: u32 = 1024;

#[unsafe(no_mangle)]
pub extern "C" fn sporedrift_parse_line(text: &[u8], bytes: &mut [u8]) -> u32
    ensures value { result ≡ coded content (line_answer text.now bytes.old) }
    ensures bytes_after { bytes.new ≡ line_bytes text.now bytes.old }
{
    export_answers::coded(log_line::parse(text, bytes))
}

#[unsafe(no_mangle)]
pub extern "C" fn sporedrift_version() -> u32
    ensures { result ≡ value 1024 }
{
    export_answers::value(VERSION)
}
